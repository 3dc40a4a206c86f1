//! Bytes that are refused: each field when its last byte has come.

use crate::asserts::{expect, expect_made};
use crate::fed::{Fed, feed_all};
use crate::wires::{BOX, CHAIN, EACH_TAG};
use patch_wire::WireFault;
use std::alloc::Global;
use std::process::Abort;

/// Bytes of a wire that are changed, each by its index and its new value; how many bytes are taken then, and the fault.
type Refused = (&'static [(usize, u8)], u64, WireFault);

/// Changes of the wire `BOX`: its head is bytes 0 to 9, the patch's counts end at byte 26, its event at byte 40, the
/// head of its block at byte 55, the vertices at byte 175.
static IN_BOX: [Refused; 31] = [
    (&[(0, 85)], 10, WireFault::BadHead),
    (&[(7, 50)], 10, WireFault::BadHead),
    (&[(8, 7)], 10, WireFault::BadHead),
    (&[(9, 9)], 10, WireFault::BadHead),
    (&[(10, 0x51)], 11, WireFault::BadTag),
    (&[(11, 1)], 15, WireFault::BadBase),
    (&[(14, 1)], 15, WireFault::BadBase),
    (&[(17, 1)], 19, WireFault::BadCount),
    (&[(18, 1)], 19, WireFault::BadCount),
    (&[(19, 2)], 23, WireFault::BadCount),
    (&[(23, 2)], 27, WireFault::BadCount),
    (&[(27, 7)], 28, WireFault::BadTag),
    (&[(27, 6)], 28, WireFault::BadEvent),
    (&[(28, 2)], 41, WireFault::BadEvent),
    (&[(29, 17)], 41, WireFault::BadEvent),
    (&[(29, 9)], 41, WireFault::BadEvent),
    (&[(36, 1)], 41, WireFault::BadEvent),
    (&[(41, 1)], 48, WireFault::BadNode),
    (&[(42, 1)], 48, WireFault::BadNode),
    (&[(19, 1)], 55, WireFault::BadNode),
    (&[(56, 1)], 76, WireFault::BadVertex),
    (&[(57, 3)], 76, WireFault::BadVertex),
    (&[(62, 16)], 76, WireFault::BadVertex),
    (&[(58, 17)], 76, WireFault::BadVertex),
    (&[(66, 1)], 76, WireFault::BadVertex),
    (&[(75, 255)], 76, WireFault::BadVertex),
    (&[(176, 6)], 188, WireFault::BadTriangle),
    (&[(180, 6)], 188, WireFault::BadTriangle),
    (&[(184, 6)], 188, WireFault::BadTriangle),
    (&[(187, 128)], 188, WireFault::BadTriangle),
    (&[(268, 6)], 272, WireFault::BadTriangle),
];

/// Changes of the wire `CHAIN`, whose patches begin at the bytes 10, 162, 529, 554, 692 and 711.
static IN_CHAIN: [Refused; 20] = [
    (&[(28, 8)], 35, WireFault::BadEvent),
    (&[(29, 33)], 35, WireFault::BadEvent),
    (&[(35, 2)], 42, WireFault::BadNode),
    (&[(35, 0)], 42, WireFault::BadNode),
    (&[(36, 1)], 42, WireFault::BadNode),
    (&[(19, 10)], 23, WireFault::BadCount),
    (&[(23, 10)], 27, WireFault::BadCount),
    (&[(58, 0)], 64, WireFault::BadNode),
    (&[(58, 2)], 64, WireFault::BadNode),
    (&[(73, 1), (75, 0)], 79, WireFault::BadNode),
    (&[(163, 0)], 167, WireFault::BadBase),
    (&[(163, 2)], 167, WireFault::BadBase),
    (&[(167, 255), (168, 255)], 171, WireFault::BadCount),
    (&[(208, 1)], 228, WireFault::BadVertex),
    (&[(208, 2)], 228, WireFault::BadVertex),
    (&[(709, 6)], 710, WireFault::BadEvent),
    (&[(738, 0)], 744, WireFault::BadNode),
    (
        &[(779, 1), (780, 0), (782, 0), (784, 0)],
        786,
        WireFault::BadNode,
    ),
    (&[(787, 1)], 793, WireFault::BadNode),
    (&[(730, 1)], 737, WireFault::BadNode),
];

/// Changes of the wire `EACH_TAG`, whose events begin at the bytes 27, 41, 51, 55, 68, 76 and 78.
static IN_EACH_TAG: [Refused; 13] = [
    (&[(42, 2)], 51, WireFault::BadEvent),
    (&[(43, 17)], 51, WireFault::BadEvent),
    (&[(49, 0)], 51, WireFault::BadEvent),
    (&[(49, 17)], 51, WireFault::BadEvent),
    (&[(52, 2)], 55, WireFault::BadEvent),
    (&[(53, 17)], 55, WireFault::BadEvent),
    (&[(56, 15)], 68, WireFault::BadEvent),
    (&[(62, 17)], 68, WireFault::BadEvent),
    (&[(69, 8)], 76, WireFault::BadEvent),
    (&[(74, 17)], 76, WireFault::BadEvent),
    (&[(77, 8)], 78, WireFault::BadEvent),
    (&[(41, 7)], 42, WireFault::BadTag),
    (&[(78, 255)], 79, WireFault::BadTag),
];

/// Feeds a replica with a wire of which some bytes are changed, in pieces of so many.
fn fed_changed(
    rt: &impl Abort,
    alloc: Global,
    wire: &[u8],
    changes: &[(usize, u8)],
    size: usize,
) -> Fed {
    let mut bytes = expect_made(rt, wire.to_vec(alloc));
    for (index, value) in changes {
        if let Some(byte) = bytes.get_mut(*index) {
            *byte = *value;
        }
    }
    let fed = feed_all(alloc, &bytes, size);
    drop(bytes);
    fed
}

/// Asserts how many bytes are taken of a wire with changes, and the fault, where it is fed in pieces of so many.
fn expect_refusal(rt: &impl Abort, alloc: Global, wire: &[u8], refused: &Refused, size: usize) {
    let (changes, taken, fault) = *refused;
    let fed = fed_changed(rt, alloc, wire, changes, size);
    let found = (fed.replica.taken(), fed.fault);
    drop(fed);
    expect(rt, changes, found, (taken, Some(fault)));
}

/// Asserts this of some changes of a wire, in pieces of several sizes.
fn expect_refusals(rt: &impl Abort, alloc: Global, wire: &[u8], rows: &[Refused]) {
    for refused in rows {
        for size in [1, 13, 1000] {
            expect_refusal(rt, alloc, wire, refused, size);
        }
    }
}

#[test]
fn refuses_a_field_when_its_last_byte_has_come(rt: HostRuntime) {
    expect_refusals(&rt, rt.alloc(), &BOX, &IN_BOX);
    expect_refusals(&rt, rt.alloc(), &CHAIN, &IN_CHAIN);
    expect_refusals(&rt, rt.alloc(), &EACH_TAG, &IN_EACH_TAG);
}
