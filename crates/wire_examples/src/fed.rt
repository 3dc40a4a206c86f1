//! Replicas that are fed with whole wires, and with parts of them.

use crate::asserts::expect;
use crate::records::EVENTS;
use crate::wires::{BOX, CHAIN, EACH_TAG};
use lattice::{MAX_DEPTH, MAX_REACH, Node, Settings};
use patch_wire::{Replica, WireFault};
use std::alloc::{AllocGlobal, Global};
use std::process::Abort;

/// More bytes than any wire of these examples has.
const ROOM: u64 = 1 << 16;

/// A replica that was fed with some bytes, how many patches took effect, and the fault, if there was one.
#[derive(Drop)]
pub(crate) struct Fed {
    pub(crate) replica: Replica,
    pub(crate) patches: u32,
    pub(crate) fault: Option<WireFault>,
}

/// Feeds a new replica with bytes, in pieces of so many, up to a fault.
pub(crate) fn feed_all(alloc: Global, bytes: &[u8], size: usize) -> Fed {
    let mut fed = Fed {
        replica: Replica::new(alloc),
        patches: 0,
        fault: None,
    };
    for piece in bytes.chunks(size.max(1)) {
        if !fed.feed(alloc, piece) {
            break;
        }
    }
    fed
}

impl Fed {
    /// Feeds a piece, and returns whether there was no fault. Bytes that have no room aren't fed.
    pub(crate) fn feed(&mut self, alloc: Global, piece: &[u8]) -> bool {
        if self.replica.taken() > ROOM || piece.len() as u64 > ROOM {
            return false;
        }
        match self.replica.feed(alloc, piece) {
            Ok(patches) => self.patches = self.patches.saturating_add(patches),
            Err(fault) => self.fault = Some(fault),
        }
        self.fault.is_none()
    }

    /// Returns how many keys and triangles a node has, if it has a block.
    pub(crate) fn lengths(&self, node: Node) -> Option<(usize, usize)> {
        let block = self.replica.block(node)?;
        Some((block.keys.len(), block.triangles.len()))
    }
}

/// Returns the first bytes of a wire.
pub(crate) fn first(wire: &[u8], count: usize) -> &[u8] {
    &wire[..count.min(wire.len())]
}

/// Wires, and how many patches and events each has.
static WIRES: [(&[u8], u32, usize); 3] = [(&BOX, 1, 1), (&EACH_TAG, 1, 7), (&CHAIN, 6, 6)];

/// How far a replica has come: the fault, if there was one, how many patches took effect, how many events it has, how
/// many bytes it took, and whether it is at rest.
#[derive(Clone, Copy, Debug, PartialEq, Eq)]
struct Progress {
    fault: Option<WireFault>,
    patches: u32,
    events: usize,
    taken: u64,
    is_at_rest: bool,
}

/// Returns how far a replica comes that is fed with bytes, in pieces of so many.
fn progress_of(alloc: Global, bytes: &[u8], size: usize) -> Progress {
    let fed = feed_all(alloc, bytes, size);
    let progress = Progress {
        fault: fed.fault,
        patches: fed.patches,
        events: fed.replica.events().len(),
        taken: fed.replica.taken(),
        is_at_rest: fed.replica.at_rest(),
    };
    drop(fed);
    progress
}

#[test]
fn takes_wires_in_any_pieces(rt: HostRuntime) {
    for (wire, patches, events) in &WIRES {
        for size in [1, 7, 272, 1000] {
            let whole = Progress {
                fault: None,
                patches: *patches,
                events: *events,
                taken: wire.len() as u64,
                is_at_rest: true,
            };
            expect(&rt, size, progress_of(rt.alloc(), wire, size), whole);
        }
    }
}

#[test]
fn reads_events_of_each_tag(rt: HostRuntime) {
    let fed = feed_all(rt.alloc(), &EACH_TAG, 5);
    let are_same = fed.replica.events() == EVENTS.as_slice();
    drop(fed);
    expect(&rt, "events of each tag", are_same, true);
}

/// The least depth and reach that a head may have, the greatest ones, and two between.
static HEADS: [(u8, u8); 3] = [(0, 0), (MAX_DEPTH, MAX_REACH), (3, 1)];

/// What a replica has of a head: the fault, the settings, and whether it is at rest.
type Head = (Option<WireFault>, Option<Settings>, bool);

impl Fed {
    /// Feeds a byte of a head, and returns what the replica has of it then.
    fn feed_head(&mut self, alloc: Global, byte: u8) -> Head {
        self.feed(alloc, &[byte]);
        self.head()
    }

    /// Returns what the replica has of a head.
    fn head(&self) -> Head {
        let settings = self.replica.settings().copied();
        (self.fault, settings, self.replica.at_rest())
    }
}

/// Asserts what a replica has of a head, which was fed with all but the depth and the reach.
fn expect_head(rt: &(impl Abort + AllocGlobal), fed: &mut Fed, settings: Settings) {
    let Settings { depth, reach } = settings;
    let open = (None, None, false);
    expect(rt, (depth, 8), fed.head(), open);
    expect(rt, (depth, 9), fed.feed_head(rt.alloc(), depth), open);
    let whole = (None, Some(settings), true);
    expect(rt, (depth, 10), fed.feed_head(rt.alloc(), reach), whole);
    let root = fed.lengths(Node::root(depth));
    expect(rt, (depth, 10), root, Some((0, 0)));
}

#[test]
fn shows_the_settings_once_the_head_is_whole(rt: HostRuntime) {
    for (depth, reach) in &HEADS {
        let settings = Settings {
            depth: *depth,
            reach: *reach,
        };
        let mut fed = feed_all(rt.alloc(), first(&BOX, 8), 8);
        expect_head(&rt, &mut fed, settings);
        drop(fed);
    }
}

#[test]
fn is_cut_before_the_end_of_a_patch(rt: HostRuntime) {
    for count in [0, 9, 11, 271] {
        let cut = Progress {
            fault: None,
            patches: 0,
            events: 0,
            taken: count as u64,
            is_at_rest: false,
        };
        expect(
            &rt,
            count,
            progress_of(rt.alloc(), first(&BOX, count), 16),
            cut,
        );
    }
}
