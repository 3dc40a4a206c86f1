//! What is known of a frame that was seen or learnt.

use lattice::Settings;
use terrain::Event;

/// The settings and the journal of a frame. No value of it is made: contracts and proofs alone speak of it, and see the
/// array as a list of any length.
pub struct Past {
    pub settings: Settings,
    pub events: [Event; 0],
}
