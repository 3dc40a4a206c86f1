//! What a replica shows after each patch of a chain.

use crate::asserts::expect;
use crate::fed::{Fed, feed_all, first};
use crate::wires::CHAIN;
use lattice::Node;
use patch_wire::WireFault;
use std::alloc::AllocGlobal;
use std::process::Abort;

/// The leaf in the corner of the box.
const CORNER: Node = Node {
    level: 0,
    k: 0,
    j: 0,
    i: 0,
};

/// How many keys and triangles a node has, if it has a block.
type Lengths = Option<(usize, usize)>;

const EMPTY: Lengths = Some((0, 0));

/// The lengths of the block of the box.
const OF_BOX: Lengths = Some((6, 8));

/// How many bytes are fed; how many events there are then, and the lengths of the root and of that leaf.
static SHOWN: [(usize, usize, Lengths, Lengths); 9] = [
    (10, 0, EMPTY, None),
    (161, 0, EMPTY, None),
    (162, 1, None, EMPTY),
    (528, 1, None, EMPTY),
    (529, 2, None, OF_BOX),
    (554, 3, None, OF_BOX),
    (692, 4, None, EMPTY),
    (711, 5, None, EMPTY),
    (801, 6, EMPTY, None),
];

/// Returns how many events there are, and the lengths of the root and of the leaf in the corner.
fn shown(fed: &Fed) -> (usize, Lengths, Lengths) {
    let events = fed.replica.events().len();
    (events, fed.lengths(Node::root(1)), fed.lengths(CORNER))
}

/// Asserts that there was no fault, and what a replica shows that was fed with so many bytes.
fn expect_shown(rt: &impl Abort, count: usize, fed: &Fed, expected: (usize, Lengths, Lengths)) {
    expect(rt, count, fed.fault, None);
    expect(rt, count, shown(fed), expected);
}

#[test]
fn shows_the_world_after_each_patch(rt: HostRuntime) {
    for (count, events, root, corner) in &SHOWN {
        let fed = feed_all(rt.alloc(), first(&CHAIN, *count), 100);
        expect_shown(&rt, *count, &fed, (*events, *root, *corner));
        drop(fed);
    }
}

/// Feeds a replica with the second patch again, which it refuses, and asserts that nothing changes.
fn expect_refusal(rt: &(impl Abort + AllocGlobal), fed: &mut Fed) {
    fed.feed(rt.alloc(), &CHAIN[162..529]);
    expect(rt, "the fault", fed.fault, Some(WireFault::BadBase));
    expect(rt, "bytes", fed.replica.taken(), 534);
    expect(rt, "patches", fed.patches, 2);
    expect(rt, "what is shown", shown(fed), (2, None, OF_BOX));
    expect(rt, "at rest", fed.replica.at_rest(), false);
}

/// A patch that comes twice has a base that the replica is past, and changes nothing; what is fed then isn't read.
#[test]
fn refuses_a_patch_that_comes_twice(rt: HostRuntime) {
    let mut fed = feed_all(rt.alloc(), first(&CHAIN, 529), 5);
    expect_refusal(&rt, &mut fed);
    expect_refusal(&rt, &mut fed);
    drop(fed);
}
