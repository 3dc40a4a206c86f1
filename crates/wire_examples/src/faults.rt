//! The words of errors.

use crate::asserts::{expect, expect_made};
use mesh_out::OutFault;

/// Faults, each with its words.
static WORDS: [(OutFault, &str); 2] = [
    (OutFault::NoMemory, "no memory"),
    (OutFault::WriteFault, "write fault"),
];

#[test]
fn tells_why_a_text_is_not_written_whole(rt: HostRuntime) {
    for (fault, words) in &WORDS {
        let text = expect_made(&rt, format!(in rt.alloc(); "{fault}"));
        expect(&rt, *fault, text.as_str(), *words);
    }
}
