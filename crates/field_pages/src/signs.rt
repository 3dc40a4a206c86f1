//! What the signs of samples are.

ghost use Rattle.std.specs.Prelude.{◌≡◌, ◌↔◌, IsTrue, not};
ghost use Rattle.std.specs.List.{list_all};
ghost use Rattle.terrain.specs.Samples.{is_solid};
ghost use Rattle.field_pages.specs.Signs.{one_sign, sample_signs};

/// What the signs of samples are: a negative sample is solid.
#[derive(Clone, Copy, Debug)]
pub(crate) enum Signs {
    /// None is solid.
    Empty,
    /// All are solid.
    Solid,
    /// Some are solid, and others aren't.
    Mixed,
}

impl Signs {
    /// Returns whether all samples with these signs are solid, or whether none is, as is asked.
    pub(crate) fn are_all(self, solid: bool) -> bool
        ensures { IsTrue result ↔ (self ≡ one_sign solid) }
    {
        match self {
            Signs::Empty => !solid,
            Signs::Solid => solid,
            Signs::Mixed => false,
        }
    }
}

/// Returns what the signs of samples are.
pub(crate) fn signs_of(samples: &[i8]) -> Signs
    ensures { result ≡ sample_signs samples.now }
{
    let (none, all) = none_and_all_are_solid(samples);
    if none {
        Signs::Empty
    } else if all {
        Signs::Solid
    } else {
        Signs::Mixed
    }
}

/// Returns whether no sample is solid, and whether all are. It reads them all, so that many are read at once.
pub fn none_and_all_are_solid(samples: &[i8]) -> (bool, bool)
    ensures none { result.0 ≡ list_all (λ sample. not (is_solid sample)) samples.now }
    ensures all { result.1 ≡ list_all is_solid samples.now }
{
    let mut low = i8::MAX;
    let mut high = i8::MIN;
    for sample in samples {
        low = low.min(*sample);
        high = high.max(*sample);
    }
    (low >= 0, high < 0)
}
