//! The settings that a head says, and the command that a later line says.

ghost use Rattle.std.specs.Prelude.{◌≡◌, ◌<◌, ◌≤◌, ℕ, length, Ok, Err, IfOk, IfSome};
ghost use Rattle.serde_json.specs.View.{members_view};
ghost use Rattle.lattice.specs.Settings.{IsSettings};
ghost use Rattle.camera_script.specs.Line.{Reads};
ghost use Rattle.camera_script.specs.Reading as spec;
ghost use Rattle.camera_script.specs.Reading.{command_in, command_reading, head_in, head_reading};
ghost use Rattle.camera_script.specs.Commands.{IsAllowedCommand};

use crate::commands::Command;
use crate::fault::LineFault;
use crate::form::Form;
use crate::json_line::{LINE_LIMIT, object};
use crate::members::{Object, expect_names};
use crate::values::number_in;
use lattice::{MAX_DEPTH, MAX_REACH, Settings};
use std::alloc::Global;
use terrain::Event;

/// The shortest line that asks for stats.
const STATS: &[u8] = b"{\"do\":\"stats\"}";

/// The shortest line that asks for an undo.
const UNDO: &[u8] = b"{\"do\":\"undo\"}";

/// The version of the format that a head names.
const FORMAT: u32 = 1;

/// Returns the settings that a head says, or its first fault.
///
/// The line is given without its line feed and one carriage return. It is an error where the line has a fault, which
/// is the first in the order of `LineFault`, or where memory runs out.
pub fn head(alloc: Global, line: &[u8]) -> Result<Settings, LineFault>
    ensures reading { Reads (head_reading line.now) result }
    ensures too_long { LINE_LIMIT < length line.now → result ≡ Err LineFault.TooLong }
    ensures allowed { IfOk result IsSettings }
{
    head_of(&object(alloc, line)?)
}

/// Returns the command that a line behind the head says in a world of these settings, or the line's first fault.
///
/// Lines and errors are as for `head`; the points of a command lie in the world, and its lengths are in fine cells.
pub fn command(alloc: Global, line: &[u8], settings: &Settings) -> Result<Command, LineFault>
    requires { IsSettings settings.now }
    ensures reading { Reads (command_reading settings.now.depth line.now) result }
    ensures too_long { LINE_LIMIT < length line.now → result ≡ Err LineFault.TooLong }
    ensures lawful { IfOk result (IsAllowedCommand settings.now.depth) }
{
    if let Some(command) = short_command(line) {
        return Ok(command);
    }
    command_of(&object(alloc, line)?, settings)
}

/// Returns the command of a line that is the shortest one for stats or for an undo, as programs write them.
///
/// It is told without the JSON reader, which fills a table of 16 KB for each line.
fn short_command(line: &[u8]) -> Option<Command>
    ensures reading { IfSome result (λ command. (depth : ℕ) →
        command_reading depth line.now ≡ Ok command) }
    ensures few { IfSome result (λ _. length line.now ≤ LINE_LIMIT) }
{
    if line == STATS {
        Some(Command::Stats)
    } else if line == UNDO {
        Some(Command::Event(Event::Undo))
    } else {
        None
    }
}

/// Returns the settings that an object says, or its first fault.
#[tactic(auto, unfolding(crate::specs::Reading::head_in))]
fn head_of(object: &Object) -> Result<Settings, LineFault>
    ensures { result ≡ head_in (members_view object.now.entries) }
{
    expect_names(object, &["terra", "depth", "reach"], &[])?;
    settings(object).ok_or(LineFault::BadValue)
}

/// Returns the settings in the members `terra`, `depth` and `reach`; `None` where one isn't of its kind or range.
fn settings(object: &Object) -> Option<Settings>
    ensures { result ≡ spec.settings_in (members_view object.now.entries) }
{
    number_in(object, "terra", FORMAT, FORMAT)?;
    let depth = number_in(object, "depth", 0, u32::from(MAX_DEPTH))?;
    let reach = number_in(object, "reach", 0, u32::from(MAX_REACH))?;
    Some(Settings {
        depth: depth as u8,
        reach: reach as u8,
    })
}

/// Returns the command that an object says in a world of these settings, or its first fault.
#[tactic(auto, unfolding(crate::specs::Reading::command_in))]
fn command_of(object: &Object, settings: &Settings) -> Result<Command, LineFault>
    requires { IsSettings settings.now }
    ensures { result ≡ command_in settings.now.depth (members_view object.now.entries) }
{
    let form = Form::of(object)?;
    expect_names(object, form.names(), form.optional_names())?;
    form.command(object, settings).ok_or(LineFault::BadValue)
}
