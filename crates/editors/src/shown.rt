//! What a pass of the mail's queue shows.

use crate::note::Note;
use crate::sheet::Sheet;
use std::collections::LinkedList;

/// What a pass of the mail's queue shows. No value of it is made.
pub struct Shown {
    /// The depth of the worlds whose events are sent.
    pub depth: u8,
    /// Whether it is an editor's pass, and what that editor has sent.
    pub sends: bool,
    pub sheet: Sheet,
    /// Whether it is the clerk's pass: how many editors were made with it, which notes it took, in order, and the
    /// sheets of the editors that were handed in to it.
    pub takes: bool,
    pub made: u8,
    pub taken: LinkedList<Note>,
    pub sheets: LinkedList<Sheet>,
}
