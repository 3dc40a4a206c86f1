//! What the ends of an exchange know.

/// What an end knows. No value of it is made.
pub enum Side<Q> {
    /// The exchange has one end still.
    Whole,
    /// It is the asker's: what was asked, until what came of it is collected.
    Asks(Option<Q>),
    /// It is the doer's: what is being done.
    Does(Option<Q>),
    /// It is that of an asker who asks no more.
    Over,
}
