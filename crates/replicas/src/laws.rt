//! The law of the grammar.

ghost use Rattle.replicas.specs.Fits.{FitsPatch, FitsSettings, NoneBeginsAnother};
ghost use Rattle.replicas.specs.Grammar.{head_bytes, patch_bytes};

/// The law that no spelling of a head begins that of another one, and no spelling of a patch that of another one. So
/// bytes are the spelling of one list of patches at most, and where one ends is known without what is behind it.
pub fn no_spelling_begins_another()
    ensures heads { NoneBeginsAnother FitsSettings head_bytes }
    ensures patches { NoneBeginsAnother FitsPatch patch_bytes }
{}
