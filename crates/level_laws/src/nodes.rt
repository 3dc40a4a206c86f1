//! The law of which nodes are the same.

ghost use Rattle.level_laws.specs.Laws.{AmongIsContained, OneNodeMore, SameNodesAreTested};

/// The law that the tests of whether two nodes are the same, and of whether one is among others, agree with the facts,
/// and that one node more makes no difference but for itself.
pub fn nodes_are_told_apart()
    ensures same { SameNodesAreTested }
    ensures among { AmongIsContained }
    ensures more { OneNodeMore }
{}
