//! Wires: the bytes of the patches of a script.

use crate::cases::{Case, RUN, expect_cases};
use crate::made::Bytes;
use crate::scripts::{HEAD, MIDDLE, SHOT, STATS};
use std::alloc::AllocError;

/// The parts of the wire of a world whose one solid point is the middle: an octahedron of half a cell, which is 128
/// units. They are the head; the tag, the base and the counts; the event; the node and the counts; six keys with their
/// positions; and eight triangles.
static MIDDLE_WIRE: [&[u8]; 18] = [
    b"TERRAPW1\0\0",
    &[0x50, 0, 0, 0, 0, 1, 0, 0, 0, 0, 0, 0, 0, 1, 0, 0, 0],
    &[0, 0, 8, 0, 8, 0, 8, 0, 8, 0, 8, 0, 8, 0],
    &[0, 0, 0, 0, 0, 0, 0, 6, 0, 0, 0, 8, 0, 0, 0],
    &[0, 2, 8, 0, 8, 0, 7, 0, 0, 8, 0, 0, 0, 8, 0, 0, 128, 7, 0, 0],
    &[0, 1, 8, 0, 7, 0, 8, 0, 0, 8, 0, 0, 128, 7, 0, 0, 0, 8, 0, 0],
    &[0, 0, 7, 0, 8, 0, 8, 0, 128, 7, 0, 0, 0, 8, 0, 0, 0, 8, 0, 0],
    &[0, 0, 8, 0, 8, 0, 8, 0, 128, 8, 0, 0, 0, 8, 0, 0, 0, 8, 0, 0],
    &[0, 1, 8, 0, 8, 0, 8, 0, 0, 8, 0, 0, 128, 8, 0, 0, 0, 8, 0, 0],
    &[0, 2, 8, 0, 8, 0, 8, 0, 0, 8, 0, 0, 0, 8, 0, 0, 128, 8, 0, 0],
    &[0, 0, 0, 0, 1, 0, 0, 0, 2, 0, 0, 0],
    &[0, 0, 0, 0, 3, 0, 0, 0, 1, 0, 0, 0],
    &[0, 0, 0, 0, 2, 0, 0, 0, 4, 0, 0, 0],
    &[0, 0, 0, 0, 4, 0, 0, 0, 3, 0, 0, 0],
    &[1, 0, 0, 0, 5, 0, 0, 0, 2, 0, 0, 0],
    &[1, 0, 0, 0, 3, 0, 0, 0, 5, 0, 0, 0],
    &[2, 0, 0, 0, 5, 0, 0, 0, 4, 0, 0, 0],
    &[3, 0, 0, 0, 4, 0, 0, 0, 5, 0, 0, 0],
];

/// The wire of the middle, or one that is made of it.
#[derive(Clone, Copy)]
pub struct Wire {
    /// How often its patch comes.
    pub patches: usize,
    /// How many bytes there are of all that.
    pub length: usize,
    /// The tag of the first patch.
    pub tag: u8,
}

/// Where the tag of the first patch is: behind the head.
const TAG_AT: usize = 10;

/// The whole wire.
pub const WHOLE_WIRE: Wire = Wire {
    patches: 1,
    length: 272,
    tag: 0x50,
};

/// The head of the wire.
const HEAD_OF_WIRE: Wire = Wire {
    length: 10,
    ..WHOLE_WIRE
};

impl Wire {
    /// Appends the wire to bytes, of which there are none yet.
    pub fn push_to(&self, bytes: &mut Vec<u8>) -> Result<(), AllocError> {
        push_parts(bytes, &MIDDLE_WIRE[..1])?;
        for _ in 0..self.patches {
            push_parts(bytes, &MIDDLE_WIRE[1..])?;
        }
        bytes.truncate(self.length);
        if let Some(tag) = bytes.get_mut(TAG_AT) {
            *tag = self.tag;
        }
        Ok(())
    }
}

fn push_parts(bytes: &mut Vec<u8>, parts: &[&[u8]]) -> Result<(), AllocError> {
    for part in parts {
        bytes.extend_from_slice(part)?;
    }
    Ok(())
}

const PICK: &str = r#"{"do":"pick","at":[2048,2048]}"#;

const WIRE: Case = Case {
    arguments: &["wire"],
    ..RUN
};

/// Scripts whose wires have the head once it is read, and nothing at an output command where no event came since the
/// one before.
static CASES: [Case; 5] = [
    Case {
        name: "no output",
        input: Bytes::Lines(&[HEAD, MIDDLE]),
        output: Bytes::Wire(HEAD_OF_WIRE),
        ..WIRE
    },
    Case {
        name: "no event",
        input: Bytes::Lines(&[HEAD, SHOT, STATS]),
        output: Bytes::Wire(HEAD_OF_WIRE),
        ..WIRE
    },
    Case {
        name: "the middle",
        input: Bytes::Lines(&[HEAD, MIDDLE, SHOT]),
        output: Bytes::Wire(WHOLE_WIRE),
        ..WIRE
    },
    Case {
        name: "twice",
        input: Bytes::Lines(&[HEAD, STATS, MIDDLE, STATS, SHOT]),
        output: Bytes::Wire(WHOLE_WIRE),
        ..WIRE
    },
    Case {
        name: "a pick",
        input: Bytes::Lines(&[HEAD, MIDDLE, PICK, SHOT]),
        output: Bytes::Wire(WHOLE_WIRE),
        ..WIRE
    },
];

#[test]
fn writes_the_patches_of_a_script(rt: HostRuntime) {
    expect_cases(&rt, &CASES);
}
