//! A line as the object that it is.

ghost use Rattle.std.specs.Prelude.{◌≡◌, ◌<◌, ◌↔◌, ◌⊎◌, IsTrue, length, Some, None, option_map, Ok, Err, MatchResult};
ghost use Rattle.serde_json.specs.Errors.{IsMemory};
ghost use Rattle.serde_json.specs.Find.{as_object};
ghost use Rattle.serde_json.specs.View.{view, members_view};
ghost use Rattle.camera_script.specs.Line as spec;
ghost use Rattle.camera_script.specs.Line.{json_value, line_members};

use crate::fault::LineFault;
use crate::members::Object;
use serde_json::{Error, Value};
use std::alloc::Global;

/// How many bytes a line has at most, without its line feed and one carriage return.
pub const LINE_LIMIT: usize = 4096;

/// Returns whether the line has more than `LINE_LIMIT` bytes.
///
/// That is the first fault of a line: it comes before a line is found to be blank.
pub fn is_too_long(line: &[u8]) -> bool
    ensures { IsTrue result ↔ (LINE_LIMIT < length line.now) }
{
    line.len() > LINE_LIMIT
}

/// Returns whether every byte of the line is a space, a tab or a carriage return; a line without bytes is blank.
pub fn is_blank(line: &[u8]) -> bool
    ensures { result ≡ spec.is_blank line.now }
{
    line.iter()
        .all(|byte| *byte == b' ' || *byte == b'\t' || *byte == b'\r')
}

/// Returns the members of the object that a line is, or its first fault up to there.
///
/// A line that is too long is refused before any memory is taken.
#[tactic(auto, using(crate::proofs::LineLemmas::line_members_long))]
pub(crate) fn object(alloc: Global, line: &[u8]) -> Result<Object, LineFault>
    ensures too_long { LINE_LIMIT < length line.now → result ≡ Err LineFault.TooLong }
    ensures members { MatchResult result
        (λ object. line_members line.now ≡ Ok (members_view object.entries))
        (λ fault. (fault ≡ LineFault.NoMemory) ⊎ (line_members line.now ≡ Err fault)) }
{
    if is_too_long(line) {
        return Err(LineFault::TooLong);
    }
    members_of(value(alloc, line)?).ok_or(LineFault::NotObject)
}

/// Returns the members of a value that is an object; `None` for any other value.
fn members_of(value: Value) -> Option<Object>
    ensures { option_map (λ object. members_view object.entries) result ≡ as_object (view value) }
{
    if let Value::Object(object) = value {
        Some(object)
    } else {
        None
    }
}

/// Returns the value that the bytes are as JSON, or why they are none.
fn value(alloc: Global, bytes: &[u8]) -> Result<Value, LineFault>
    ensures { MatchResult result
        (λ value. json_value bytes.now ≡ Some (view value))
        (λ fault. (fault ≡ LineFault.NoMemory)
        ⊎ ((json_value bytes.now ≡ None) × (fault ≡ LineFault.NotJson))) }
{
    match Value::from_slice(alloc, bytes) {
        Ok(value) => Ok(value),
        Err(error) => Err(fault_of(&error)),
    }
}

/// Returns the fault of a line that `serde_json` refuses: memory ran out, or it isn't JSON.
fn fault_of(error: &Error) -> LineFault
    ensures one { (result ≡ LineFault.NoMemory) ⊎ (result ≡ LineFault.NotJson) }
    ensures memory { (result ≡ LineFault.NoMemory) ↔ IsMemory error.now }
{
    if error.is_memory() {
        LineFault::NoMemory
    } else {
        LineFault::NotJson
    }
}
