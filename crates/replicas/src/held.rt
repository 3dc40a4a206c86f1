//! What a replica holds: the settings of its world, its events and its blocks.

ghost use Rattle.std.specs.Prelude.{◌≡◌, ◌++◌, [], All, IfOk, IsTrue, MatchOption, None, OnErr, OnOk, Some, length, map};
ghost use Rattle.std.specs.Arc.{arc_value};
ghost use Rattle.std.specs.Option.{is_some};
ghost use Rattle.lattice.specs.declared.node.Node.{Node as NodeOf};
ghost use Rattle.lattice.specs.Node.{IsNode};
ghost use Rattle.lattice.specs.Settings.{IsSettings};
ghost use Rattle.node_tables.specs.NodeSlots.{item_at};
ghost use Rattle.replicas.specs.Following.{opening_world, put_last, without};
ghost use Rattle.replicas.specs.Held.{IsHeld};
ghost use Rattle.replicas.specs.Puts.{block_put};
ghost use Rattle.replicas.specs.Reading.{edits_of};

use crate::block::Block;
use crate::put::{Put, clear_all, put_all};
use lattice::{Node, Settings};
use node_tables::NodeTable;
use std::alloc::{AllocError, Global};
use std::marker::Model;
use std::sync::Arc;
use terrain::Event;

/// What a replica holds: the settings of its world, its events and its blocks.
#[derive(Drop)]
pub(crate) struct Held {
    settings: Settings,
    events: Vec<Event>,
    /// How many edits are in force after the events.
    in_force: usize,
    blocks: NodeTable<Block>,
}

impl Model for Held {
    ghost use Rattle.std.specs.Prelude.{◌≡◌};
    ghost use Rattle.replicas.specs.Held.{HeldState, IsHeld};
    ghost use Rattle.replicas.specs.Reading.{edits_of};

    ghost Value = { HeldState };

    ghost view = { λ held. record {
      settings = held.settings;
      events = held.events.items;
      blocks = held.blocks;
    } };

    ghost invariant = { λ held. IsHeld (record {
      settings = held.settings;
      events = held.events.items;
      blocks = held.blocks;
    }) × (held.in_force ≡ edits_of held.events.items 0) };
}

impl Held {
    /// Returns a world of these settings without events, whose root has an empty block. Out of memory is the only
    /// error.
    pub(crate) fn new(alloc: Global, settings: Settings) -> Result<Held, AllocError>
        requires { IsSettings settings }
        ensures settings { IfOk result (λ held. held.settings ≡ settings) }
        ensures events { IfOk result (λ held. held.events ≡ []) }
        ensures blocks { IfOk result (λ held. (n : NodeOf)
            → item_at held.blocks n ≡ (opening_world settings).block n) }
    {
        let mut blocks = NodeTable::new(alloc, settings.depth)?;
        let root = Arc::new(alloc, Block::empty(alloc))?;
        blocks.set(Node::root(settings.depth), root);
        Ok(Held {
            settings,
            events: Vec::new(alloc),
            in_force: 0,
            blocks,
        })
    }

    /// Returns the settings.
    #[inline(always)]
    pub(crate) fn settings(&self) -> &Settings
        ensures value { result.now ≡ self.now.settings }
        ensures allowed { IsSettings result.now }
        ensures held { IsHeld self.now }
    {
        &self.settings
    }

    /// Returns the events, the first of them first.
    pub(crate) fn events(&self) -> &[Event]
        ensures { result.now ≡ self.now.events }
    {
        &self.events
    }

    /// Returns how many edits are in force after the events.
    pub(crate) fn in_force(&self) -> usize
        ensures { result ≡ edits_of self.now.events 0 }
    {
        self.in_force
    }

    /// Lends the block of a node, if it has one.
    pub(crate) fn block(&self, node: Node) -> Option<&Arc<Block>>
        ensures { MatchOption result (item_at self.now.blocks node ≡ None)
            (λ block. item_at self.now.blocks node ≡ Some (arc_value block.now)) }
    {
        self.blocks.get(node)
    }

    /// Returns whether a node has a block.
    pub(crate) fn has(&self, node: Node) -> bool
        ensures { result ≡ is_some (item_at self.now.blocks node) }
    {
        self.blocks.get(node).is_some()
    }

    /// Takes the parts of a patch: its gone nodes lose their blocks, its blocks are put, and its events come behind
    /// those before. Out of memory is the only error, and leaves it as it was.
    pub(crate) fn take(
        &mut self,
        events: &[Event],
        in_force: usize,
        gone: &[Node],
        puts: Vec<Put>,
    ) -> Result<(), AllocError>
        requires in_force { in_force ≡ edits_of (self.old.events ++ events.now) 0 }
        requires nodes { All (λ put. IsNode self.old.settings.depth put.node) puts.items }
        ensures settings { OnOk result (self.new.settings ≡ self.old.settings) }
        ensures events { OnOk result (self.new.events ≡ self.old.events ++ events.now) }
        ensures blocks { OnOk result ((n : NodeOf) → item_at self.new.blocks n
            ≡ put_last (map block_put puts.items) n
            (without gone.now n (item_at self.old.blocks n))) }
        ensures unchanged { OnErr result (self.new ≡ self.old) }
    {
        self.events.extend_from_slice(events)?;
        self.in_force = in_force;
        clear_all(&mut self.blocks, gone);
        put_all(&mut self.blocks, puts);
        Ok(())
    }
}
