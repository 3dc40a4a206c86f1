//! Keys are told apart, a mesh lists each of its keys once, and the two ways to say a net agree.

ghost use Rattle.cell_laws.specs.Laws.{KeysAreListedOnce, KeysAreTested, NetsAreOfPairs};

/// The test passes exactly for equal keys.
pub fn keys_are_told_apart()
    ensures { KeysAreTested }
{}

/// The keys of triangles are each listed once, and no other key is.
pub fn each_key_is_listed_once()
    ensures { KeysAreListedOnce }
{}

/// Directed edges that have the same net by weights have the same net for each pair of keys.
pub fn nets_by_weights_are_nets_of_pairs()
    ensures { NetsAreOfPairs }
{}
