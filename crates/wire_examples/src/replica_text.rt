//! The text of replicas.

use crate::asserts::{expect, expect_made};
use crate::fed::{feed_all, first};
use crate::wires::{BOX, CHAIN};
use patch_wire::write_replica;
use std::alloc::Global;
use std::process::Abort;
use terra_io::MemSink;

/// A sink has room for so many bytes.
const ROOM: usize = 1 << 12;

/// The text of the box, as a run writes it whose script has this box and then a shot.
const BOX_TEXT: &str = "o shot_1
# events 1
g b0_0_0_0
v 8.00000000 8.00000000 7.50000000
v 8.00000000 7.50000000 8.00000000
v 7.50000000 8.00000000 8.00000000
v 8.50000000 8.00000000 8.00000000
v 8.00000000 8.50000000 8.00000000
v 8.00000000 8.00000000 8.50000000
f 1 2 3
f 1 4 2
f 1 3 5
f 1 5 4
f 2 6 3
f 2 4 6
f 3 6 5
f 4 5 6
";

/// The same of a box behind a camera.
const SECOND_TEXT: &str = "o shot_1
# events 2
g b0_0_0_0
v 8.00000000 8.00000000 7.50000000
v 8.00000000 7.50000000 8.00000000
v 7.50000000 8.00000000 8.00000000
v 8.50000000 8.00000000 8.00000000
v 8.00000000 8.50000000 8.00000000
v 8.00000000 8.00000000 8.50000000
f 1 2 3
f 1 4 2
f 1 3 5
f 1 5 4
f 2 6 3
f 2 4 6
f 3 6 5
f 4 5 6
";

/// Wires, how many bytes of each are fed, and the text then.
static TEXTS: [(&[u8], usize, &str); 6] = [
    (&BOX, 9, ""),
    (&BOX, 10, "o shot_1\n# events 0\n"),
    (&BOX, 271, "o shot_1\n# events 0\n"),
    (&BOX, 272, BOX_TEXT),
    (&CHAIN, 529, SECOND_TEXT),
    (&CHAIN, 801, "o shot_1\n# events 6\n"),
];

/// Writes the text of a replica that was fed with these bytes, in pieces of so many, and returns whether it was all
/// written.
fn write_text(alloc: Global, sink: &mut MemSink, bytes: &[u8], size: usize) -> bool {
    let fed = feed_all(alloc, bytes, size);
    let is_written = write_replica(alloc, sink, &fed.replica).is_ok();
    drop(fed);
    is_written
}

/// Asserts the text of a replica that was fed with these bytes, in pieces of so many.
fn expect_text(rt: &impl Abort, alloc: Global, bytes: &[u8], size: usize, text: &str) {
    let mut sink = expect_made(rt, MemSink::new(alloc, ROOM, Vec::new(alloc)));
    let is_written = write_text(alloc, &mut sink, bytes, size);
    let is_same = sink.bytes() == text.as_bytes();
    drop(sink);
    expect(rt, bytes.len(), (is_written, is_same), (true, true));
}

#[test]
fn writes_the_shot_of_what_took_effect(rt: HostRuntime) {
    for (wire, count, text) in &TEXTS {
        for size in [1, 272] {
            expect_text(&rt, rt.alloc(), first(wire, *count), size, text);
        }
    }
}
