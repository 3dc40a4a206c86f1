//! Scripts that are carried out line by line.
//!
//! `carry_out_script` reads the head, and a `Player` carries out the other lines. A line is read, then carried out, and
//! only then is more read. So the output of all lines before a refused one is written, and a write that fails meanwhile
//! comes before the refusal.

ghost use Rattle.std.specs.Prelude.{◌≡◌, ◌<◌, true, length};
ghost use Rattle.lattice.specs.Settings.{IsSettings};
ghost use Rattle.std.specs.Io.KnownBytes.{IsAtEnd};
ghost use Rattle.script_play.specs.Input.{CountsFit};
ghost use Rattle.script_play.specs.Play.{Plays, PlaysLines};
ghost use Rattle.script_play.specs.Statuses.{status_from};
ghost use Rattle.requests.specs.Texts.{IsAllowedForm, text_in};
ghost use Rattle.script_play.specs.Script.{said_by};

use crate::form::Form;
use crate::player::Player;
use camera_script::{LineFault, head};
use cells::Cases;
use gates::MeshGate;
use lattice::Settings;
use script_play::{Input, Status, refused_status, send_lines};
use std::alloc::Global;
use std::sync::Wait;
use std::thread::Threads;
use terra_io::{Sink, Source};

/// Carries out the script that the source has, each line before more is read, and writes what the form asks for: the
/// meshes, and behind their end the line of the watchers that the options ask for, or the wire.
///
/// The error is the status of a script that isn't carried out to its end.
pub fn carry_out_script<S: Source, K: Sink, G: MeshGate, R: Threads + Wait + Sync>(
    rt: &R,
    alloc: Global,
    form: Form,
    source: &mut S,
    sink: &mut K,
    gate: &G,
) -> Result<(), Status>
    requires { IsAllowedForm form }
    ensures { Plays length said_by (text_in form) (S.state source.old) (S.state source.new)
        (K.state sink.old) (K.state sink.new) (status_from result) }
{
    let mut input = Input::new();
    if !input.advance(source)? {
        let line = input.number() + 1;
        return Err(refused_status(line, LineFault::MissingMember));
    }
    match head(alloc, input.line()) {
        Ok(settings) => play(rt, alloc, form, settings, &mut input, source, sink, gate),
        Err(fault) => Err(refused_status(input.number(), fault)),
    }
}

/// Carries out the commands that are left of an input, and writes what the form asks for: the meshes, beside the
/// workers and the watchers that the options ask for, and then the line of the watchers; or the wire.
fn play<S: Source, K: Sink, G: MeshGate, R: Threads + Wait + Sync>(
    rt: &R,
    alloc: Global,
    form: Form,
    settings: Settings,
    input: &mut Input,
    source: &mut S,
    sink: &mut K,
    gate: &G,
) -> Result<(), Status>
    requires form { IsAllowedForm form }
    requires allowed { IsSettings settings }
    requires counts { CountsFit input.old }
    requires number { 0 < input.old.number }
    requires end { input.old.is_ended ≡ true → IsAtEnd (S.state source.old).bytes }
    ensures { PlaysLines settings input.old (text_in form) (S.state source.old)
        (S.state source.new) (K.state sink.old) (K.state sink.new) (status_from result) }
{
    let cases = Cases::new(alloc)?;
    match form {
        Form::Wire => send_lines(rt, alloc, &cases, &settings, input, source, sink),
        Form::Text(options) => {
            let player = Player {
                rt,
                alloc,
                gate,
                cases: &cases,
                options,
                settings,
            };
            player.play(input, source, sink)
        }
    }
}
