//! The law of which nodes are leaves.

ghost use Rattle.level_laws.specs.Laws.{LeavesAreListed, LeavesAreTested};

/// The law that the test of a leaf agrees with the fact, and that the list of leaves has each leaf and no other node.
pub fn leaves_are_listed()
    ensures test { LeavesAreTested }
    ensures each { LeavesAreListed }
{}
