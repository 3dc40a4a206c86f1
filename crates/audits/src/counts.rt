//! What looks at frames count.

ghost use Rattle.std.specs.Prelude.{◌≡◌, ◌+◌, ◌<◌, ◌^◌};
ghost use Rattle.audits.specs.Counts.{counts_together, no_looks};

/// What some looks at frames counted.
#[derive(Clone, Copy, Debug, PartialEq, Eq)]
pub struct Counts {
    /// How many looks there were.
    pub looks: u32,
    /// How many cracks the audits of the frames have, added up.
    pub cracks: u64,
    /// How many looks were backward: the journal didn't begin with the journal of the look before.
    pub backward: u32,
}

impl Counts {
    /// Returns the counts of no look.
    pub fn new() -> Counts
        ensures { result ≡ no_looks }
    {
        Counts {
            looks: 0,
            cracks: 0,
            backward: 0,
        }
    }

    /// Returns both counts together.
    pub fn and(self, other: Counts) -> Counts
        requires looks { self.looks + other.looks < 2 ^ 32 }
        requires cracks { self.cracks + other.cracks < 2 ^ 64 }
        requires backward { self.backward + other.backward < 2 ^ 32 }
        ensures { result ≡ counts_together self other }
    {
        Counts {
            looks: self.looks + other.looks,
            cracks: self.cracks + other.cracks,
            backward: self.backward + other.backward,
        }
    }
}
