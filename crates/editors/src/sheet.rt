//! What an editor has sent.

use std::collections::LinkedList;
use terrain::Event;

/// What an editor has sent: its number, its events in order, and whether it sent its end note behind them. No value of
/// it is made.
pub struct Sheet {
    pub editor: u8,
    pub events: LinkedList<Event>,
    pub has_ended: bool,
}
