//! Notes: what editors put into the mail.

use terrain::Event;

/// What an editor puts into the mail.
#[derive(Clone, Copy, Debug, PartialEq, Eq)]
pub enum Note {
    /// An event that the editor with this number sent.
    Sent { editor: u8, event: Event },
    /// The editor with this number sends nothing more.
    Ended { editor: u8 },
}
