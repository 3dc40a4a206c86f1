//! What tables by node give back.

ghost use Rattle.std.specs.Prelude.{◌≡◌};

use crate::asserts::{expect, expect_made};
use lattice::Node;
use node_tables::NodeTable;
use std::alloc::Global;
use std::process::Abort;
use std::sync::Arc;

/// A node of the lowest level of a world of depth 1.
const LOWEST: Node = Node {
    level: 0,
    k: 0,
    j: 0,
    i: 1,
};

const ROOT: Node = Node {
    level: 1,
    k: 0,
    j: 0,
    i: 0,
};

/// Returns whether a node has an item in a table.
fn has(table: &NodeTable<u32>, node: Node) -> bool {
    table.get(node).is_some()
}

/// Takes the item of a node out of a table, and returns whether there was one.
fn clear(table: &mut NodeTable<u32>, node: Node) -> bool {
    table.clear(node).is_some()
}

/// Asserts who owns an item that was put into a table, which nodes have one, and that it can be taken out once.
fn expect_held(rt: &impl Abort, table: &mut NodeTable<u32>, item: &Arc<u32>) {
    expect(rt, "its owners", Arc::strong_count(item), 2);
    let held = [has(table, LOWEST), has(table, ROOT)];
    expect(rt, "what was put and what was not", held, [true, false]);
    let cleared = [clear(table, LOWEST), clear(table, LOWEST)];
    expect(rt, "cleared, and again", cleared, [true, false]);
}

/// Asserts what an empty table of a world of depth 1 has once an item is put, and once it is taken out.
fn expect_put(rt: &impl Abort, table: &mut NodeTable<u32>, item: &Arc<u32>)
    requires { table.old.depth ≡ 1 }
{
    expect(rt, "at first", has(table, LOWEST), false);
    table.set(LOWEST, expect_made(rt, Arc::try_clone(item)));
    expect_held(rt, table, item);
}

/// Asserts the same of a new table.
fn expect_put_anew(rt: &impl Abort, alloc: Global, item: &Arc<u32>) {
    let mut table: NodeTable<u32> = expect_made(rt, NodeTable::new(alloc, 1));
    expect_put(rt, &mut table, item);
    drop(table);
}

#[test]
fn gives_back_what_was_put(rt: HostRuntime) {
    let item = expect_made(&rt, Arc::new(rt.alloc(), 7u32));
    expect_put_anew(&rt, rt.alloc(), &item);
    drop(item);
}
