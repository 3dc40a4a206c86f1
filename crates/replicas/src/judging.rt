//! Fields that are judged: what their bytes say, where a world takes it, and else the fault.

ghost use Rattle.std.specs.Prelude.{◌≡◌, ◌+◌, ◌<◌, ◌≤◌, ◌^◌, IfOk, length};
ghost use Rattle.lattice.specs.Settings.{IsDepth, IsSettings};
ghost use Rattle.lattice.specs.Node.{IsNode, is_before};
ghost use Rattle.replicas.specs.Held.{world_held};
ghost use Rattle.replicas.specs.Reading.{edits_after, event_size, is_behind, judge_base, judge_block_node, judge_event, judge_event_count, judge_event_tag, judge_gone, judge_head, judge_node_count, judge_tag, judge_triangle, judge_vertex, lacks_edit, last_node};

use crate::fault::WireFault;
use crate::held::Held;
use crate::numbers::{event_read, four_at, node_read, vertex_read};
use crate::worlds::{is_key, is_lawful, is_position};
use lattice::{Key, MAX_DEPTH, MAX_REACH, Node, Pos, Settings};
use node_tables::slot_count;
use terrain::{Event, MAX_EVENTS};

/// The byte with which a patch begins.
pub const PATCH_TAG: u8 = 0x50;

/// The tag of an undo, which is the greatest one of an event.
pub(crate) const UNDO_TAG: u8 = 6;

/// Returns the settings of a head.
pub(crate) fn judge_head(bytes: &[u8]) -> Result<Settings, WireFault>
    requires { length bytes.now ≡ 10 }
    ensures { result ≡ judge_head bytes.now }
{
    let settings = Settings {
        depth: bytes[8],
        reach: bytes[9],
    };
    if &bytes[..8] == b"TERRAPW1".as_slice()
        && settings.depth <= MAX_DEPTH
        && settings.reach <= MAX_REACH
    {
        Ok(settings)
    } else {
        Err(WireFault::BadHead)
    }
}

/// Returns the tag of a patch.
pub(crate) fn judge_tag(bytes: &[u8]) -> Result<u8, WireFault>
    requires { length bytes.now ≡ 1 }
    ensures { result ≡ judge_tag bytes.now }
{
    if bytes[0] == PATCH_TAG {
        Ok(bytes[0])
    } else {
        Err(WireFault::BadTag)
    }
}

/// Returns the base of a patch behind so many events.
pub(crate) fn judge_base(bytes: &[u8], events: usize) -> Result<u32, WireFault>
    requires { length bytes.now ≡ 4 }
    ensures { result ≡ judge_base events bytes.now }
{
    let base = four_at(bytes, 0);
    if base as usize == events {
        Ok(base)
    } else {
        Err(WireFault::BadBase)
    }
}

/// Returns how many events a patch has, behind so many.
pub(crate) fn judge_event_count(bytes: &[u8], events: usize) -> Result<u32, WireFault>
    requires { length bytes.now ≡ 4 }
    ensures { result ≡ judge_event_count events bytes.now }
{
    let count = four_at(bytes, 0);
    if events <= MAX_EVENTS && count as usize <= MAX_EVENTS - events {
        Ok(count)
    } else {
        Err(WireFault::BadCount)
    }
}

/// Returns how many gone nodes or blocks a patch has, in a world of this depth.
pub(crate) fn judge_node_count(bytes: &[u8], depth: u8) -> Result<u32, WireFault>
    requires size { length bytes.now ≡ 4 }
    requires depth { IsDepth depth }
    ensures { result ≡ judge_node_count depth bytes.now }
{
    let count = four_at(bytes, 0);
    if count as usize <= slot_count(depth) {
        Ok(count)
    } else {
        Err(WireFault::BadCount)
    }
}

/// Returns the tag of an event.
pub(crate) fn judge_event_tag(bytes: &[u8]) -> Result<u8, WireFault>
    requires { length bytes.now ≡ 1 }
    ensures value { result ≡ judge_event_tag bytes.now }
    ensures most { IfOk result (λ tag. tag ≤ 6) }
{
    if bytes[0] <= UNDO_TAG {
        Ok(bytes[0])
    } else {
        Err(WireFault::BadTag)
    }
}

/// Returns the event of a tag with these fields, which is lawful in the world, and undoes one of so many edits in force
/// if it is an undo.
pub(crate) fn judge_event(
    bytes: &[u8],
    tag: u8,
    settings: &Settings,
    in_force: usize,
) -> Result<Event, WireFault>
    requires size { length bytes.now ≡ event_size tag }
    requires settings { IsSettings settings.now }
    ensures { result ≡ judge_event settings.now.depth in_force tag bytes.now }
{
    match event_read(tag, bytes) {
        Some(event) if is_lawful(&event, settings) && !lacks_edit(&event, in_force) => Ok(event),
        _ => Err(WireFault::BadEvent),
    }
}

/// Returns whether an event is an undo, and no edit is in force.
fn lacks_edit(event: &Event, in_force: usize) -> bool
    ensures { result ≡ lacks_edit event.now in_force }
{
    matches!(event, Event::Undo) && in_force == 0
}

/// Returns how many edits are in force after an event, behind so many.
pub(crate) fn edits_after(event: &Event, in_force: usize) -> usize
    requires { in_force + 1 < 2 ^ 64 }
    ensures { result ≡ edits_after event.now in_force }
{
    match event {
        Event::Edit(_) => in_force + 1,
        Event::Undo => in_force.saturating_sub(1),
        Event::Camera { .. } | Event::Away { .. } => in_force,
    }
}

/// Returns a gone node, which is in the world, behind the last one, and has a block.
pub(crate) fn judge_gone(bytes: &[u8], held: &Held, last: Option<Node>) -> Result<Node, WireFault>
    requires { length bytes.now ≡ 7 }
    ensures { result ≡ judge_gone (world_held held.now) last bytes.now }
{
    let node = node_read(bytes);
    if node.is_in_world(held.settings().depth) && is_behind(last, node) && held.has(node) {
        Ok(node)
    } else {
        Err(WireFault::BadNode)
    }
}

/// Returns the node of a block, which is in a world of this depth and behind the last one.
pub(crate) fn judge_block_node(
    bytes: &[u8],
    depth: u8,
    last: Option<Node>,
) -> Result<Node, WireFault>
    requires size { length bytes.now ≡ 7 }
    requires depth { IsDepth depth }
    ensures value { result ≡ judge_block_node depth last bytes.now }
    ensures inside { IfOk result (IsNode depth) }
{
    let node = node_read(bytes);
    if node.is_in_world(depth) && is_behind(last, node) {
        Ok(node)
    } else {
        Err(WireFault::BadNode)
    }
}

/// Returns a key with its position, both of which are in the world.
#[inline(always)]
pub(crate) fn judge_vertex(bytes: &[u8], settings: &Settings) -> Result<(Key, Pos), WireFault>
    requires size { length bytes.now ≡ 20 }
    requires settings { IsSettings settings.now }
    ensures { result ≡ judge_vertex settings.now.depth bytes.now }
{
    match vertex_read(bytes) {
        Some((key, at)) if is_key(&key, settings) && is_position(&at, settings) => Ok((key, at)),
        _ => Err(WireFault::BadVertex),
    }
}

/// Returns the places of a triangle, which are below the number of keys.
#[inline(always)]
pub(crate) fn judge_triangle(bytes: &[u8], keys: u32) -> Result<[u32; 3], WireFault>
    requires { length bytes.now ≡ 12 }
    ensures { result ≡ judge_triangle keys bytes.now }
{
    let places = [four_at(bytes, 0), four_at(bytes, 4), four_at(bytes, 8)];
    if places[0] < keys && places[1] < keys && places[2] < keys {
        Ok(places)
    } else {
        Err(WireFault::BadTriangle)
    }
}

/// Returns the last of some nodes, if there is one.
pub(crate) fn last_node(nodes: &[Node]) -> Option<Node>
    ensures { result ≡ last_node nodes.now }
{
    nodes.last().copied()
}

/// Returns whether a node is behind the last one, if there is one.
pub(crate) fn is_behind(last: Option<Node>, node: Node) -> bool
    ensures { result ≡ is_behind last node }
{
    match last {
        None => true,
        Some(last) => is_before(last, node),
    }
}

/// Returns whether a node is before another one.
fn is_before(a: Node, b: Node) -> bool
    ensures { result ≡ is_before a b }
{
    a.level < b.level
        || (a.level == b.level
            && (a.k < b.k || (a.k == b.k && (a.j < b.j || (a.j == b.j && a.i < b.i)))))
}
