//! Replicas: what shows the events and the blocks of a wire.

ghost use Rattle.std.specs.Prelude.{◌≡◌, ◌+◌, ◌<◌, ◌≤◌, ◌^◌, ◌↔◌, [], IfSome, IsTrue, MatchOption, None, Some, length};
ghost use Rattle.terrain.specs.MeshLists.{lists_of};
ghost use Rattle.lattice.specs.Settings.{IsSettings};
ghost use Rattle.replicas.specs.Replicas.{Feeds, block_shown, events_shown, is_at_rest, new_replica, settings_shown};

use crate::fault::WireFault;
use crate::reader::Reader;
use crate::stage::Stage;
use lattice::{Node, Settings};
use std::alloc::Global;
use std::marker::Model;
use terrain::{BlockView, Event};

/// What shows the events and the blocks of a wire, whose bytes it is fed in any pieces.
#[derive(Drop)]
pub struct Replica {
    reader: Reader,
    /// The fault of the field that was refused, if one was.
    fault: Option<WireFault>,
}

impl Model for Replica {
    ghost use Rattle.replicas.specs.Readers.{reader_of};
    ghost use Rattle.replicas.specs.Replicas.{IsReplica, ReplicaState};

    ghost Value = { ReplicaState };

    ghost view = { λ replica. record (reader_of replica.reader) { fault = replica.fault } };

    ghost invariant = { λ replica.
        IsReplica (record (reader_of replica.reader) { fault = replica.fault }) };
}

impl Replica {
    /// Returns the replica before the first byte. It takes no memory.
    pub fn new(alloc: Global) -> Replica
        ensures { result ≡ new_replica }
    {
        Replica {
            reader: Reader::new(alloc),
            fault: None,
        }
    }

    /// Takes a piece of the wire, and returns how many patches took effect with it.
    ///
    /// A patch takes effect at once when its last byte has come. The error is the fault of the first field that is
    /// refused, or out of memory; what was shown before stays, and each later call returns the same error.
    pub fn feed(&mut self, alloc: Global, piece: &[u8]) -> Result<u32, WireFault>
        requires small { length piece.now < 2 ^ 32 }
        requires room { self.old.taken + length piece.now ≤ 2 ^ 63 }
        ensures { Feeds self.old piece.now self.new result }
    {
        if let Some(fault) = self.fault {
            return Err(fault);
        }
        let outcome = self.reader.feed(alloc, piece);
        self.fault = outcome.err();
        outcome
    }

    /// Returns the settings of the world, once the head is whole.
    pub fn settings(&self) -> Option<&Settings>
        ensures value { MatchOption result (settings_shown self.now ≡ None)
            (λ settings. settings_shown self.now ≡ Some settings.now) }
        ensures allowed { IfSome result (λ settings. IsSettings settings.now) }
    {
        Some(self.reader.held.as_ref()?.settings())
    }

    /// Returns whether the head is whole, no part of a patch stands, and no field was refused.
    pub fn at_rest(&self) -> bool
        ensures { result ≡ is_at_rest self.now }
    {
        self.reader.held.is_some()
            && self.fault.is_none()
            && matches!(self.reader.draft.stage, Stage::Tag)
    }

    /// Returns the events, the first of them first.
    pub fn events(&self) -> &[Event]
        ensures { result.now ≡ events_shown self.now }
    {
        match &self.reader.held {
            None => &[],
            Some(held) => held.events(),
        }
    }

    /// Lends the lists of a node's block, if it has one.
    pub fn block(&self, node: Node) -> Option<BlockView<'_>>
        ensures lists { MatchOption result (block_shown self.now node ≡ None)
            (λ view. block_shown self.now node ≡ Some (lists_of view)) }
        ensures few { IfSome result (λ view. length view.keys.now < 2 ^ 32) }
    {
        let held = self.reader.held.as_ref()?;
        Some(held.block(node)?.view())
    }

    /// Returns how many bytes were taken: all that it was fed, or those up to and with the field that was refused.
    pub fn taken(&self) -> u64
        ensures { result ≡ self.now.taken }
    {
        self.reader.taken
    }
}
