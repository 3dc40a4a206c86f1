//! What is in sets of nodes, and in which order.

use crate::asserts::{expect, expect_made, rely_on};
use lattice::Node;
use node_tables::NodeSet;
use std::alloc::Global;
use std::process::Abort;

/// The last node of level 1 of a world of depth 2, whose slot is 71: its bit is in the second word.
const HIGH: Node = Node {
    level: 1,
    k: 1,
    j: 1,
    i: 1,
};

/// A node of level 0 of that world, whose slot is 63: its bit is the last of the first word.
const LOW: Node = Node {
    level: 0,
    k: 3,
    j: 3,
    i: 3,
};

/// The root, whose slot is 72.
const ROOT: Node = Node {
    level: 2,
    k: 0,
    j: 0,
    i: 0,
};

/// These nodes, in their order.
static NODES: [Node; 3] = [LOW, HIGH, ROOT];

/// The same nodes in another order, one of them twice.
static ADDED: [Node; 4] = [ROOT, LOW, HIGH, LOW];

/// Adds nodes to a set, in whose world each has to be.
fn insert(rt: &impl Abort, set: &mut NodeSet, nodes: &[Node]) {
    for node in nodes {
        rely_on(rt, *node, node.is_in_world(set.depth()));
        set.insert(*node);
    }
}

/// Removes a node from a set, in whose world it has to be.
fn remove(rt: &impl Abort, set: &mut NodeSet, node: Node) {
    rely_on(rt, node, node.is_in_world(set.depth()));
    set.remove(node);
}

/// Asserts which member of a set is the first one after a node, which has to be in the set's world.
fn expect_next(rt: &impl Abort, set: &NodeSet, node: Node, next: Option<Node>) {
    rely_on(rt, node, node.is_in_world(set.depth()));
    expect(rt, node, set.first_after(node), next);
}

/// Asserts which of the nodes `LOW`, `HIGH` and `ROOT` are in a set.
fn expect_members(rt: &impl Abort, case: &str, set: &NodeSet, members: [bool; 3]) {
    let [low, high, root] = NODES;
    let found = [set.contains(low), set.contains(high), set.contains(root)];
    expect(rt, case, found, members);
}

/// Asserts the members of a set, in order.
fn expect_order(rt: &impl Abort, alloc: Global, set: &NodeSet, nodes: &[Node]) {
    let members = expect_made(rt, set.iter().collect::<Vec<Node>>(alloc));
    expect(rt, "all", members.as_slice(), nodes);
    drop(members);
}

/// Asserts what is in a set of `LOW`, `HIGH` and `ROOT`, and what is left without the first one.
fn expect_ends(rt: &impl Abort, set: &mut NodeSet) {
    expect(rt, "the first", set.first(), Some(LOW));
    expect_next(rt, set, LOW, Some(HIGH));
    expect_next(rt, set, ROOT, None);
    remove(rt, set, LOW);
    expect(rt, "the first left", set.first(), Some(HIGH));
    expect_members(rt, "after a removal", set, [false, true, true]);
}

/// Asserts what is in a set of a world of depth 2 that is empty once nodes are added to it, and once one is taken out.
fn expect_in_order(rt: &impl Abort, alloc: Global, set: &mut NodeSet) {
    expect(rt, "a new set is empty", set.is_empty(), true);
    insert(rt, set, &ADDED);
    expect_order(rt, alloc, set, &NODES);
    expect_ends(rt, set);
}

#[test]
fn gives_members_in_the_order_of_nodes(rt: HostRuntime) {
    let mut set = expect_made(&rt, NodeSet::new(rt.alloc(), 2));
    expect_in_order(&rt, rt.alloc(), &mut set);
    drop(set);
}

/// Returns the set of some nodes of a world of depth 2.
fn set_of(rt: &impl Abort, alloc: Global, nodes: &[Node]) -> NodeSet {
    let mut set = expect_made(rt, NodeSet::new(alloc, 2));
    insert(rt, &mut set, nodes);
    set
}

/// Asserts what is in both of two sets, which have to be of one world, and in the one alone.
fn expect_both(rt: &impl Abort, both: &mut NodeSet, set: &NodeSet, other: &NodeSet) {
    rely_on(rt, "one world", set.depth() == other.depth());
    rely_on(rt, "one world", both.depth() == other.depth());
    both.copy_from(set);
    both.insert_all(other);
    expect_members(rt, "in one or the other", both, [true, true, true]);
    both.remove_all(other);
    expect_members(rt, "in the one alone", both, [true, false, false]);
}

/// Asserts what is left of a set in another one, which has to be of its world, and once it is cleared.
fn expect_kept(rt: &impl Abort, set: &mut NodeSet, other: &NodeSet) {
    rely_on(rt, "one world", set.depth() == other.depth());
    set.keep_all(other);
    expect(rt, "the first in both", set.first(), Some(HIGH));
    set.clear();
    expect(rt, "a cleared set is empty", set.is_empty(), true);
}

/// Asserts what is in a set of `LOW` and `HIGH` together with one of `HIGH` and `ROOT`, by a third one.
fn expect_beside(rt: &impl Abort, alloc: Global, set: &mut NodeSet, other: &NodeSet) {
    let mut both = expect_made(rt, NodeSet::new(alloc, 2));
    expect_both(rt, &mut both, set, other);
    expect_kept(rt, set, other);
    drop(both);
}

/// Asserts the same with a new set of `HIGH` and `ROOT`.
fn expect_with_other(rt: &impl Abort, alloc: Global, set: &mut NodeSet) {
    let other = set_of(rt, alloc, &NODES[1..]);
    expect_beside(rt, alloc, set, &other);
    drop(other);
}

#[test]
fn goes_by_whole_sets(rt: HostRuntime) {
    let mut set = set_of(&rt, rt.alloc(), &NODES[..2]);
    expect_with_other(&rt, rt.alloc(), &mut set);
    drop(set);
}
