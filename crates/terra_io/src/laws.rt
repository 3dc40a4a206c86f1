//! The law of the counts of faults.

ghost use Rattle.std.specs.Prelude.{◌≤◌, ◌⊎◌};
ghost use Rattle.terra_io.specs.Stream.{HasFailed, IsFaultless, Stream};

/// The law that the count of a source's or a sink's faults never falls, whether a call of it failed or not.
pub fn counts_never_fall()
    ensures { (old new : Stream) → IsFaultless old new ⊎ HasFailed old new
        → old.faults ≤ new.faults }
{}
