//! The law of replicas.

ghost use Rattle.std.specs.Prelude.{◌≡◌, ◌≢◌, ℕ, ◌++◌, List, [], Result, Some, flat_map};
ghost use Rattle.replicas.specs.declared.fault.WireFault.{WireFault as FaultOf};
ghost use Rattle.replicas.specs.declared.fault.WireFault.TheVariants.{NoMemory};
ghost use Rattle.replicas.specs.Fed.{FedInTurn, IsFed, Shows};
ghost use Rattle.replicas.specs.Following.{wire};
ghost use Rattle.replicas.specs.Replicas.{Feeds, ReplicaState, new_replica};

/// The law that a replica shows what comes of the bytes that it was fed with, however they were cut into pieces: their
/// whole patches took effect, and a field was refused exactly where the grammar refuses it. That holds but where memory
/// ran out.
///
/// A loop that feeds pieces keeps `IsFed` of the bytes so far: it holds before the first byte (`new`), and each piece
/// makes it hold of the bytes with the piece (`more`). Then `shown` tells what the replica shows.
pub fn replicas_show_what_comes_of_their_bytes()
    ensures pieces { (pieces : List (List ℕ)) (replica : ReplicaState)
        → FedInTurn pieces new_replica replica → replica.fault ≢ Some NoMemory
        → Shows replica (wire (flat_map (λ piece. piece) pieces)) }
    ensures new { IsFed [] new_replica }
    ensures more { (bytes piece : List ℕ) (old new : ReplicaState) (result : Result ℕ FaultOf)
        → IsFed bytes old → Feeds old piece new result → IsFed (bytes ++ piece) new }
    ensures shown { (bytes : List ℕ) (replica : ReplicaState) → IsFed bytes replica
        → replica.fault ≢ Some NoMemory → Shows replica (wire bytes) }
{}
