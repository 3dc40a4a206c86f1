//! The parts of a patch that were read, and its next field.
//!
//! A draft is given the fields of a patch one after another, each whole. It judges a field and keeps what it says, and
//! so takes memory for what has come, and never for a count.

ghost use Rattle.std.specs.Prelude.{◌≡◌, ◌<◌, [], OnOk, length, map};
ghost use Rattle.replicas.specs.Drafts.{GoesOn, HasMore, ReadsPart, draft_of};
ghost use Rattle.replicas.specs.Held.{world_held};
ghost use Rattle.replicas.specs.Stages.{HasBegun, IsDraft, new_draft, stage_of_blocks, stage_of_events, stage_of_gone, stage_size};
ghost use Rattle.replicas.specs.Reading.{last_node};
ghost use Rattle.replicas.specs.declared.stage.Stage.TheVariants as stages;

use crate::block::Block;
use crate::fault::WireFault;
use crate::held::Held;
use crate::judging::{
    UNDO_TAG, edits_after, judge_base, judge_block_node, judge_event, judge_event_count,
    judge_event_tag, judge_gone, judge_node_count, judge_tag, judge_triangle, judge_vertex,
    last_node,
};
use crate::numbers::four_at;
use crate::put::{Put, push_put};
use crate::stage::Stage;
use lattice::{Key, Node, Pos};
use std::alloc::Global;
use std::mem;
use terrain::Event;

/// The parts of a patch that were read, and which field comes next.
#[derive(Drop)]
pub(crate) struct Draft {
    pub(crate) stage: Stage,
    base: u32,
    event_count: u32,
    gone_count: u32,
    block_count: u32,
    pub(crate) events: Vec<Event>,
    /// How many edits are in force after these events.
    pub(crate) in_force: usize,
    pub(crate) gone: Vec<Node>,
    pub(crate) blocks: Vec<Put>,
    /// The node of the block that isn't whole, and how many keys and triangles it has.
    node: Node,
    key_count: u32,
    triangle_count: u32,
    keys: Vec<Key>,
    positions: Vec<Pos>,
    triangles: Vec<[u32; 3]>,
}

impl Draft {
    /// Returns the draft before the first byte of a patch, behind events after which so many edits are in force. It
    /// takes no memory.
    pub(crate) fn new(alloc: Global, in_force: usize) -> Draft
        ensures { draft_of result ≡ new_draft in_force }
    {
        Draft {
            stage: Stage::Tag,
            base: 0,
            event_count: 0,
            gone_count: 0,
            block_count: 0,
            events: Vec::new(alloc),
            in_force,
            gone: Vec::new(alloc),
            blocks: Vec::new(alloc),
            node: Node::root(0),
            key_count: 0,
            triangle_count: 0,
            keys: Vec::new(alloc),
            positions: Vec::new(alloc),
            triangles: Vec::new(alloc),
        }
    }

    /// Reads the next field, which has come whole. The error refuses it, or is out of memory.
    #[inline(always)]
    pub(crate) fn read(&mut self, alloc: Global, held: &Held, field: &[u8]) -> Result<(), WireFault>
        requires draft { IsDraft (world_held held.now) (draft_of self.old) }
        requires size { length field.now ≡ stage_size self.old.stage }
        requires some { 0 < length field.now }
        ensures reads { ReadsPart (world_held held.now) (draft_of self.old) field.now
            (draft_of self.new) result }
        ensures within { OnOk result (HasBegun self.new.stage) }
    {
        match self.stage {
            Stage::Vertex => self.read_vertex(alloc, held, field),
            Stage::Triangle => self.read_triangle(alloc, held, field),
            Stage::Fields(tag) => self.read_event(held, tag, field),
            Stage::EventTag => self.read_event_tag(held, field),
            Stage::Gone => self.read_gone(held, field),
            Stage::BlockNode => self.read_block_node(held, field),
            Stage::KeyCount => self.read_key_count(held, field),
            Stage::TriangleCount => self.read_triangle_count(alloc, held, field),
            Stage::Tag => self.read_tag(held, field),
            Stage::Base => self.read_base(held, field),
            Stage::EventCount => self.read_event_count(held, field),
            Stage::GoneCount => self.read_gone_count(held, field),
            Stage::BlockCount => self.read_block_count(held, field),
            Stage::End => unreachable!(),
        }
    }

    /// Reads the tag of the patch.
    fn read_tag(&mut self, held: &Held, field: &[u8]) -> Result<(), WireFault>
        requires stage { self.old.stage ≡ stages.Tag }
        requires draft { IsDraft (world_held held.now) (draft_of self.old) }
        requires size { length field.now ≡ stage_size stages.Tag }
        ensures reads { ReadsPart (world_held held.now) (draft_of self.old) field.now
            (draft_of self.new) result }
        ensures within { OnOk result (HasBegun self.new.stage) }
    {
        judge_tag(field)?;
        self.stage = Stage::Base;
        Ok(())
    }

    /// Reads the base of the patch.
    fn read_base(&mut self, held: &Held, field: &[u8]) -> Result<(), WireFault>
        requires stage { self.old.stage ≡ stages.Base }
        requires draft { IsDraft (world_held held.now) (draft_of self.old) }
        requires size { length field.now ≡ stage_size stages.Base }
        ensures reads { ReadsPart (world_held held.now) (draft_of self.old) field.now
            (draft_of self.new) result }
        ensures within { OnOk result (HasBegun self.new.stage) }
    {
        self.base = judge_base(field, held.events().len())?;
        self.stage = Stage::EventCount;
        Ok(())
    }

    /// Reads how many events the patch has.
    fn read_event_count(&mut self, held: &Held, field: &[u8]) -> Result<(), WireFault>
        requires stage { self.old.stage ≡ stages.EventCount }
        requires draft { IsDraft (world_held held.now) (draft_of self.old) }
        requires size { length field.now ≡ stage_size stages.EventCount }
        ensures reads { ReadsPart (world_held held.now) (draft_of self.old) field.now
            (draft_of self.new) result }
        ensures within { OnOk result (HasBegun self.new.stage) }
    {
        self.event_count = judge_event_count(field, held.events().len())?;
        self.stage = Stage::GoneCount;
        Ok(())
    }

    /// Reads how many gone nodes the patch has.
    fn read_gone_count(&mut self, held: &Held, field: &[u8]) -> Result<(), WireFault>
        requires stage { self.old.stage ≡ stages.GoneCount }
        requires draft { IsDraft (world_held held.now) (draft_of self.old) }
        requires size { length field.now ≡ stage_size stages.GoneCount }
        ensures reads { ReadsPart (world_held held.now) (draft_of self.old) field.now
            (draft_of self.new) result }
        ensures within { OnOk result (HasBegun self.new.stage) }
    {
        self.gone_count = judge_node_count(field, held.settings().depth)?;
        self.stage = Stage::BlockCount;
        Ok(())
    }

    /// Reads how many blocks the patch has.
    fn read_block_count(&mut self, held: &Held, field: &[u8]) -> Result<(), WireFault>
        requires stage { self.old.stage ≡ stages.BlockCount }
        requires draft { IsDraft (world_held held.now) (draft_of self.old) }
        requires size { length field.now ≡ stage_size stages.BlockCount }
        ensures reads { ReadsPart (world_held held.now) (draft_of self.old) field.now
            (draft_of self.new) result }
        ensures within { OnOk result (HasBegun self.new.stage) }
    {
        self.block_count = judge_node_count(field, held.settings().depth)?;
        self.stage = self.stage_of_events();
        Ok(())
    }

    /// Reads the tag of an event.
    fn read_event_tag(&mut self, held: &Held, field: &[u8]) -> Result<(), WireFault>
        requires stage { self.old.stage ≡ stages.EventTag }
        requires draft { IsDraft (world_held held.now) (draft_of self.old) }
        requires size { length field.now ≡ stage_size stages.EventTag }
        ensures reads { ReadsPart (world_held held.now) (draft_of self.old) field.now
            (draft_of self.new) result }
        ensures within { OnOk result (HasBegun self.new.stage) }
    {
        let tag = judge_event_tag(field)?;
        self.stage = Stage::Fields(tag);
        if tag == UNDO_TAG {
            return self.read_event(held, tag, &[]);
        }
        Ok(())
    }

    /// Reads the fields of an event of this tag.
    fn read_event(&mut self, held: &Held, tag: u8, field: &[u8]) -> Result<(), WireFault>
        requires stage { self.old.stage ≡ (stages.Fields tag) }
        requires draft { IsDraft (world_held held.now) (draft_of self.old) }
        requires size { length field.now ≡ stage_size (stages.Fields tag) }
        ensures reads { ReadsPart (world_held held.now) (draft_of self.old) field.now
            (draft_of self.new) result }
        ensures within { OnOk result (HasBegun self.new.stage) }
    {
        let event = judge_event(field, tag, held.settings(), self.in_force)?;
        self.events.push(event)?;
        self.in_force = edits_after(&event, self.in_force);
        self.stage = self.stage_of_events();
        Ok(())
    }

    /// Reads a gone node.
    fn read_gone(&mut self, held: &Held, field: &[u8]) -> Result<(), WireFault>
        requires stage { self.old.stage ≡ stages.Gone }
        requires draft { IsDraft (world_held held.now) (draft_of self.old) }
        requires size { length field.now ≡ stage_size stages.Gone }
        ensures reads { ReadsPart (world_held held.now) (draft_of self.old) field.now
            (draft_of self.new) result }
        ensures within { OnOk result (HasBegun self.new.stage) }
    {
        let node = judge_gone(field, held, last_node(&self.gone))?;
        self.gone.push(node)?;
        self.stage = self.stage_of_gone();
        Ok(())
    }

    /// Reads the node of a block.
    fn read_block_node(&mut self, held: &Held, field: &[u8]) -> Result<(), WireFault>
        requires stage { self.old.stage ≡ stages.BlockNode }
        requires draft { IsDraft (world_held held.now) (draft_of self.old) }
        requires size { length field.now ≡ stage_size stages.BlockNode }
        ensures reads { ReadsPart (world_held held.now) (draft_of self.old) field.now
            (draft_of self.new) result }
        ensures within { OnOk result (HasBegun self.new.stage) }
    {
        self.node = judge_block_node(field, held.settings().depth, self.last_block())?;
        self.stage = Stage::KeyCount;
        Ok(())
    }

    /// Reads how many keys a block has.
    fn read_key_count(&mut self, held: &Held, field: &[u8]) -> Result<(), WireFault>
        requires stage { self.old.stage ≡ stages.KeyCount }
        requires draft { IsDraft (world_held held.now) (draft_of self.old) }
        requires size { length field.now ≡ stage_size stages.KeyCount }
        ensures reads { ReadsPart (world_held held.now) (draft_of self.old) field.now
            (draft_of self.new) result }
        ensures within { OnOk result (HasBegun self.new.stage) }
    {
        self.key_count = four_at(field, 0);
        self.stage = Stage::TriangleCount;
        Ok(())
    }

    /// Reads how many triangles a block has.
    fn read_triangle_count(
        &mut self,
        alloc: Global,
        held: &Held,
        field: &[u8],
    ) -> Result<(), WireFault>
        requires stage { self.old.stage ≡ stages.TriangleCount }
        requires draft { IsDraft (world_held held.now) (draft_of self.old) }
        requires size { length field.now ≡ stage_size stages.TriangleCount }
        ensures reads { ReadsPart (world_held held.now) (draft_of self.old) field.now
            (draft_of self.new) result }
        ensures within { OnOk result (HasBegun self.new.stage) }
    {
        self.triangle_count = four_at(field, 0);
        self.go_on(alloc, held)
    }

    /// Reads a key and its position.
    fn read_vertex(&mut self, alloc: Global, held: &Held, field: &[u8]) -> Result<(), WireFault>
        requires stage { self.old.stage ≡ stages.Vertex }
        requires draft { IsDraft (world_held held.now) (draft_of self.old) }
        requires size { length field.now ≡ stage_size stages.Vertex }
        ensures reads { ReadsPart (world_held held.now) (draft_of self.old) field.now
            (draft_of self.new) result }
        ensures within { OnOk result (HasBegun self.new.stage) }
    {
        let (key, at) = judge_vertex(field, held.settings())?;
        self.keys.push(key)?;
        self.positions.push(at)?;
        self.go_on(alloc, held)
    }

    /// Reads a triangle.
    fn read_triangle(&mut self, alloc: Global, held: &Held, field: &[u8]) -> Result<(), WireFault>
        requires stage { self.old.stage ≡ stages.Triangle }
        requires draft { IsDraft (world_held held.now) (draft_of self.old) }
        requires size { length field.now ≡ stage_size stages.Triangle }
        ensures reads { ReadsPart (world_held held.now) (draft_of self.old) field.now
            (draft_of self.new) result }
        ensures within { OnOk result (HasBegun self.new.stage) }
    {
        let places = judge_triangle(field, self.key_count)?;
        self.triangles.push(places)?;
        self.go_on(alloc, held)
    }

    /// Goes on with what is left of a block; where nothing is, the block is put behind the others. Out of memory is the
    /// only error.
    fn go_on(&mut self, alloc: Global, held: &Held) -> Result<(), WireFault>
        requires { HasMore (world_held held.now) (draft_of self.old) }
        ensures goes { GoesOn (world_held held.now) (draft_of self.old) (draft_of self.new) result }
        ensures within { OnOk result (HasBegun self.new.stage) }
    {
        if self.keys.len() < self.key_count as usize {
            self.stage = Stage::Vertex;
            return Ok(());
        }
        if self.triangles.len() < self.triangle_count as usize {
            self.stage = Stage::Triangle;
            return Ok(());
        }
        let block = Block {
            keys: take_list(alloc, &mut self.keys),
            positions: take_list(alloc, &mut self.positions),
            triangles: take_list(alloc, &mut self.triangles),
        };
        push_put(alloc, &mut self.blocks, self.node, block)?;
        self.stage = self.stage_of_blocks();
        Ok(())
    }

    /// Returns what comes next among the events, or behind them.
    fn stage_of_events(&self) -> Stage
        ensures value { result ≡ stage_of_events (draft_of self.now) }
        ensures within { HasBegun result }
    {
        if self.events.len() < self.event_count as usize {
            Stage::EventTag
        } else {
            self.stage_of_gone()
        }
    }

    /// Returns what comes next among the gone nodes, or behind them.
    fn stage_of_gone(&self) -> Stage
        ensures value { result ≡ stage_of_gone (draft_of self.now) }
        ensures within { HasBegun result }
    {
        if self.gone.len() < self.gone_count as usize {
            Stage::Gone
        } else {
            self.stage_of_blocks()
        }
    }

    /// Returns what comes next among the blocks, or behind them.
    fn stage_of_blocks(&self) -> Stage
        ensures value { result ≡ stage_of_blocks (draft_of self.now) }
        ensures within { HasBegun result }
    {
        if self.blocks.len() < self.block_count as usize {
            Stage::BlockNode
        } else {
            Stage::End
        }
    }

    /// Returns the node of the last block, if there is one.
    fn last_block(&self) -> Option<Node>
        ensures { result ≡ last_node (map (λ put. put.node) self.now.blocks.items) }
    {
        Some(self.blocks.last()?.node)
    }
}

/// Takes a list out, and leaves an empty one in its place. It takes no memory.
fn take_list<T>(alloc: Global, list: &mut Vec<T>) -> Vec<T>
    ensures taken { result.items ≡ list.old.items }
    ensures left { list.new.items ≡ [] }
{
    mem::replace(list, Vec::new(alloc))
}
