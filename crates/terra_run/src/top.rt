//! A run: from the arguments and the script to the output and the status.
//!
//! `run` is the call that the promises of a run are made of. It looks at the arguments before anything is read or
//! written. `perform` does what they ask for, and `run` offers the status's line to the notes, which changes nothing
//! else.

ghost use Rattle.std.specs.Prelude.{◌≡◌, IfSome};
ghost use Rattle.terra_io.specs.Stream.{IsOffered};
ghost use Rattle.requests.specs.Drilled.{IsDrilled};
ghost use Rattle.requests.specs.Edited.{HaveEdited};
ghost use Rattle.requests.specs.Mirroring.{HasMirrored};
ghost use Rattle.script_play.specs.Note.{note_of};
ghost use Rattle.terra_run.specs.Performed.{DoesNothing, IsPerformed, ReadsNothing};
ghost use Rattle.terra_run.specs.Run.{IsExact, IsExactAtLimit, Ran};
ghost use Rattle.terra_run.specs.SeamlessOutput.{WritesSeamless};
ghost use Rattle.arguments.specs.Drill.{IsDrill};
ghost use Rattle.arguments.specs.Editing.{IsEditing};
ghost use Rattle.arguments.specs.Request.{AskFor, AskForNoTask, IsLawfulRequest, texts};
ghost use Rattle.arguments.specs.declared.drill.Drill.{Drill};
ghost use Rattle.arguments.specs.declared.editing.Editing.{Editing};

use arguments::{Request, request_in};
use gates::MeshGate;
use requests::{Form, carry_out_drill, carry_out_editing, carry_out_mirror, carry_out_script};
use script_play::{Status, offer_note};
use snapshots::histories_are_seamless;
use std::alloc::Global;
use std::sync::Wait;
use std::thread::Threads;
use terra_io::{Sink, Source};

/// Runs the script that the source has, or mirrors the wire, or carries out a drill, or several editors, writes its
/// output to the sink, and returns how the run ended.
///
/// The arguments are those behind the program's name: `run`, and then its options, `wire` or `mirror` alone, or `drill`
/// or `edit` with its numbers. The output of `wire` is the wire of the script, in place of its meshes; `mirror` reads a
/// wire to its end and writes the mesh that it leads to. A drill reads nothing, nor do editors, which work in threads
/// of their own, and of each of which the gate is told before its first event. Each line of a script is carried out
/// before more is read, and at most `INPUT_LIMIT` bytes are read, or of a wire `WIRE_LIMIT`.
/// Workers, where the options ask for some, mesh leaves in threads of their own while the lines are carried out, and
/// the gate is told of each leaf that they mesh. Watchers, where the options ask for some, enter the frames that are
/// published, each in a thread of its own, and the gate is told of each look; their line comes behind the output of a
/// script that is carried out to its end. All threads are joined before `run` returns. Each status but `Done` offers
/// its one line to the notes, and a fault of the notes changes nothing else.
pub fn run<S: Source, K: Sink, E: Sink, G: MeshGate, R: Threads + Wait + Sync>(
    rt: &R,
    alloc: Global,
    arguments: &[&str],
    source: &mut S,
    sink: &mut K,
    notes: &mut E,
    gate: &G,
) -> Status
    ensures table { (AskFor (texts arguments.now) Request.Mirror → ⊥)
        → Ran (texts arguments.now) (S.state source.old) (S.state source.new)
        (K.state sink.old) (K.state sink.new) result }

    // The other way round: unless memory runs out or a call fails, each status comes exactly where
    // the table has it.
    ensures exact { IsExact (texts arguments.now) (S.state source.old) (S.state source.new)
        (K.state sink.old) (K.state sink.new) result }
    ensures limit { IsExactAtLimit (texts arguments.now) (S.state source.old) (S.state source.new)
        (K.state sink.old) (K.state sink.new) result }
    ensures bad_words { AskForNoTask (texts arguments.now) → result ≡ Status.BadWords }

    // Where a row says that nothing is read or written, the source or the sink stays as it was.
    ensures untouched { result ≡ Status.BadWords
        → (source.new ≡ source.old) × (sink.new ≡ sink.old) }

    // A drill's output is written whole, or a first part of it; nothing is read. So is the text of
    // several editors, which tells whose each event is, in the order in which they came.
    ensures drill { (asked : Drill) → IsDrill (texts arguments.now) asked
        → IsDrilled asked (K.state sink.old) (K.state sink.new) result
        × (source.new ≡ source.old) }
    ensures edit { (asked : Editing) → IsEditing (texts arguments.now) asked
        → HaveEdited asked (K.state sink.old) (K.state sink.new) result
        × (source.new ≡ source.old) }

    // A mirror has a table of its own, over what comes of the bytes of the wire, and so is what goes
    // the other way round.
    ensures mirror { AskFor (texts arguments.now) Request.Mirror
        → HasMirrored (S.state source.old) (S.state source.new) (K.state sink.old)
        (K.state sink.new) result }

    // Each shot, each line of stats and each pick that is written is of meshes without a crack: off
    // the border of the world each directed edge of their triangles occurs as often as its reverse,
    // and each key has one position. A wire has none of these, and a mirror's text is of whatever
    // wire it reads.
    ensures seamless { (AskFor (texts arguments.now) Request.Wire → ⊥)
        → (AskFor (texts arguments.now) Request.Mirror → ⊥)
        → WritesSeamless (K.state sink.old) (K.state sink.new) }

    // The status's line was offered to the notes.
    ensures note { IsOffered (E.state notes.old) (E.state notes.new) (note_of result) }
{
    histories_are_seamless();
    let status = perform(rt, alloc, request_in(arguments), source, sink, gate);
    offer_note(&status, notes);
    status
}

/// Does what is asked for, and returns how that ended: `BadWords` where that is nothing, or a text of the program's
/// own.
fn perform<S: Source, K: Sink, G: MeshGate, R: Threads + Wait + Sync>(
    rt: &R,
    alloc: Global,
    asked: Option<Request>,
    source: &mut S,
    sink: &mut K,
    gate: &G,
) -> Status
    requires { IfSome asked IsLawfulRequest }
    ensures done { IsPerformed asked (S.state source.old) (S.state source.new)
        (K.state sink.old) (K.state sink.new) result }
    ensures unread { ReadsNothing asked → source.new ≡ source.old }
    ensures unwritten { DoesNothing asked → sink.new ≡ sink.old }
{
    let Some(request) = asked else {
        return Status::BadWords;
    };
    match request {
        Request::Run(options) => Status::of(carry_out_script(
            rt,
            alloc,
            Form::Text(options),
            source,
            sink,
            gate,
        )),
        Request::Wire => Status::of(carry_out_script(rt, alloc, Form::Wire, source, sink, gate)),
        Request::Mirror => carry_out_mirror(alloc, source, sink),
        Request::Drill(drill) => carry_out_drill(rt, alloc, drill, sink),
        Request::Edit(asked) => carry_out_editing(rt, alloc, asked, sink, gate),
        Request::Help => Status::BadWords,
        Request::Version => Status::BadWords,
    }
}
