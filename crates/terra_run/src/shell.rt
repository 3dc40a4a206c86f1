//! What the program does with the arguments behind its name: the texts of its own, and all else by `run`.
//!
//! `main` has the streams and the list of arguments, and calls `program_over`; `program` is the same over texts that
//! are lent. Both have the clauses of `run`, and two more for the texts. A new form of the program is a case of
//! `arguments::Request`, and stands in `run`, unless it only shows a text.

ghost use Rattle.std.specs.Prelude.{◌≡◌, IfOk, OnErr};
ghost use Rattle.arguments.specs.Drill.{IsDrill};
ghost use Rattle.arguments.specs.Editing.{IsEditing};
ghost use Rattle.arguments.specs.Request.{AskFor, texts, texts_of_strings};
ghost use Rattle.arguments.specs.declared.drill.Drill.{Drill};
ghost use Rattle.arguments.specs.declared.editing.Editing.{Editing};
ghost use Rattle.terra_io.specs.Stream.{IsOffered};
ghost use Rattle.requests.specs.Drilled.{IsDrilled};
ghost use Rattle.requests.specs.Edited.{HaveEdited};
ghost use Rattle.requests.specs.Mirroring.{HasMirrored};
ghost use Rattle.script_play.specs.Note.{note_of};
ghost use Rattle.terra_run.specs.Run.{IsExact, IsExactAtLimit, Ran};
ghost use Rattle.terra_run.specs.Shown.{IsShown};

use crate::top::run;
use arguments::{Request, is_only, lent_texts};
use gates::MeshGate;
use script_play::{Status, offer_note};
use std::alloc::{AllocError, Global};
use std::sync::Wait;
use std::thread::Threads;
use terra_io::{Sink, Source, put_all};

/// The text that `--help` asks for.
pub const HELP: &str = "terra: a voxel terrain engine

Usage: terra run [--workers N] [--watch K] [--looks M] < SCRIPT > MESH.obj
       terra wire < SCRIPT > WIRE
       terra mirror < WIRE > MESH.obj
       terra drill SEED EDITS DEPTH
       terra edit SEED EDITORS EDITS DEPTH
       terra --help
       terra --version

`run` reads a script from standard input, one JSON object a line, carries out
each line before it reads more, and writes the meshes that it asks for to
standard output, as Wavefront OBJ:

    terra run < examples/valley.jsonl > valley.obj

The first line of a script is its head, and each later line a command:

    {\"terra\":1,\"depth\":3,\"reach\":1}
    {\"do\":\"ground\",\"mode\":\"fill\",\"h\":40}
    {\"do\":\"ball\",\"mode\":\"carve\",\"at\":[36,58,50],\"r\":26}

  box     mode, lo, hi   fills or carves the points from lo to hi
  ball    mode, at, r    fills or carves a ball of radius r
  ground  mode, h        fills or carves all up to the height h
  smooth  lo, hi         smooths the samples from lo to hi
  camera  view, at       puts a viewpoint at a point; blocks near it are finer
  away    view           takes a viewpoint away
  undo                   undoes the last edit that isn't undone yet
  shot    normals        writes the mesh; with normals true, normals too
  stats                  writes how many leaves, triangles and keys it has
  pick    at             writes how high it is over a place

All numbers are whole. The side of a world is 16 times 2 to the depth, 0 to 6, in
cells; the reach, 0 to 8, tells how far from a viewpoint blocks stay fine. Lengths
are in cells, a point is [x,y,z] from 0 to the side, and z is up. A mode is fill
or carve. A view, 0 to 7, is one of eight viewpoints; a camera without one moves
view 0. The place of a pick is [x,y], in units of 1/256 cell; a shot may have no
normals. tools/explain SCRIPT tells every fault of a script, and what is right.

  --workers N  N workers, 0 to 16, each in a thread of its own, mesh blocks while
               the script is read. The default is 0: then blocks are meshed at
               each output, on all processors. The output is the same.
  --watch K    K watchers, 0 to 8, each in a thread of its own, look at the meshes
               while they change, and count what doesn't fit together; a last
               line of the output tells what they found. The default is 0.
  --looks M    each watcher looks M times, 1 to 1000. The default is 20.

    terra run --watch 2 --looks 50 < examples/hills.jsonl > hills.obj

`wire` reads a script as `run` does, and writes its wire: the patches that lead
from each mesh that it asks for to the next one, as bytes that a replica reads.

    terra wire < examples/valley.jsonl > valley.wire

`mirror` reads a wire to its end, and writes the mesh that it leads to. It writes
nothing before that, nor where the wire is cut or a field of it is refused.

    terra mirror < valley.wire > last.obj

`drill` reads nothing. It carries out a long script that follows from a number,
and writes a line of stats after every eighth edit, and one at the end:
SEED is 0 to 4294967295, EDITS 0 to 10000, DEPTH 0 to 4.

    terra drill 7 400 3

`edit` reads nothing. EDITORS editors, 1 to 8, each in a thread of its own, make a
ground and then EDITS edits, 0 to 8000, of one world. What an editor does follows
from its seed, which is SEED and its number, from 0; in which order the edits of
different editors come, from nothing. A line for each edit, the grounds among
them, tells whose it is, and the last line has the stats.

    terra edit 7 3 100 2

`--help` shows this text, and `--version` the version.

Exit status:
  0  done: all of the input was read, and the whole output is written
  1  memory ran out
  2  the arguments are none of the above; nothing was read or written
  3  a line of the script is refused; the output of those before it is written
  4  a read failed
  5  a write failed
  6  the script has more than 65535 edits, undos and moves of viewpoints
  7  the input has 2^26 bytes or more, or as a wire 2^30
  9  a line has nothing to undo; the output of those before it is written
 10  a field of the wire is refused; nothing was written
 11  the wire ends within its head or within a patch; nothing was written

Each but 0 writes one line to standard error.
";

/// The text that `--version` asks for.
pub const VERSION: &str = "terra 0.2.0\n";

/// Does what the arguments behind the program's name ask for, and returns how it ended.
///
/// `--help` and `--version`, each as the only argument, write their text and read nothing. All other arguments are
/// those of `run`.
pub fn program<S: Source, K: Sink, E: Sink, G: MeshGate, R: Threads + Wait + Sync>(
    rt: &R,
    alloc: Global,
    arguments: &[&str],
    source: &mut S,
    sink: &mut K,
    notes: &mut E,
    gate: &G,
) -> Status
    ensures help { AskFor (texts arguments.now) Request.Help
        → IsShown HELP.now (K.state sink.old) (K.state sink.new) result
        × (source.new ≡ source.old) }
    ensures version { AskFor (texts arguments.now) Request.Version
        → IsShown VERSION.now (K.state sink.old) (K.state sink.new) result
        × (source.new ≡ source.old) }
    ensures drill { (asked : Drill) → IsDrill (texts arguments.now) asked
        → IsDrilled asked (K.state sink.old) (K.state sink.new) result
        × (source.new ≡ source.old) }
    ensures edit { (asked : Editing) → IsEditing (texts arguments.now) asked
        → HaveEdited asked (K.state sink.old) (K.state sink.new) result
        × (source.new ≡ source.old) }
    ensures mirror { AskFor (texts arguments.now) Request.Mirror
        → HasMirrored (S.state source.old) (S.state source.new) (K.state sink.old)
        (K.state sink.new) result }
    ensures table { (AskFor (texts arguments.now) Request.Help → ⊥)
        → (AskFor (texts arguments.now) Request.Version → ⊥)
        → (AskFor (texts arguments.now) Request.Mirror → ⊥)
        → Ran (texts arguments.now) (S.state source.old) (S.state source.new)
        (K.state sink.old) (K.state sink.new) result }
    ensures exact { IsExact (texts arguments.now) (S.state source.old) (S.state source.new)
        (K.state sink.old) (K.state sink.new) result }
    ensures limit { IsExactAtLimit (texts arguments.now) (S.state source.old)
        (S.state source.new) (K.state sink.old) (K.state sink.new) result }
    ensures note { IsOffered (E.state notes.old) (E.state notes.new) (note_of result) }
{
    if is_only("--help", arguments) {
        show(HELP, sink, notes)
    } else if is_only("--version", arguments) {
        show(VERSION, sink, notes)
    } else {
        run(rt, alloc, arguments, source, sink, notes, gate)
    }
}

/// Does what a list of arguments asks for, as `program` does. It is an error where memory runs out before that: then
/// nothing was read or written.
pub fn program_over<S: Source, K: Sink, E: Sink, G: MeshGate, R: Threads + Wait + Sync>(
    rt: &R,
    alloc: Global,
    arguments: &[String],
    source: &mut S,
    sink: &mut K,
    notes: &mut E,
    gate: &G,
) -> Result<Status, AllocError>
    ensures help { IfOk result (λ status. AskFor (texts_of_strings arguments.now) Request.Help
        → IsShown HELP.now (K.state sink.old) (K.state sink.new) status
        × (source.new ≡ source.old)) }
    ensures version { IfOk result (λ status.
        AskFor (texts_of_strings arguments.now) Request.Version
        → IsShown VERSION.now (K.state sink.old) (K.state sink.new) status
        × (source.new ≡ source.old)) }
    ensures drill { IfOk result (λ status.
        (asked : Drill) → IsDrill (texts_of_strings arguments.now) asked
        → IsDrilled asked (K.state sink.old) (K.state sink.new) status
        × (source.new ≡ source.old)) }
    ensures edit { IfOk result (λ status.
        (asked : Editing) → IsEditing (texts_of_strings arguments.now) asked
        → HaveEdited asked (K.state sink.old) (K.state sink.new) status
        × (source.new ≡ source.old)) }
    ensures mirror { IfOk result (λ status.
        AskFor (texts_of_strings arguments.now) Request.Mirror
        → HasMirrored (S.state source.old) (S.state source.new) (K.state sink.old)
        (K.state sink.new) status) }
    ensures table { IfOk result (λ status.
        (AskFor (texts_of_strings arguments.now) Request.Help → ⊥)
        → (AskFor (texts_of_strings arguments.now) Request.Version → ⊥)
        → (AskFor (texts_of_strings arguments.now) Request.Mirror → ⊥)
        → Ran (texts_of_strings arguments.now) (S.state source.old) (S.state source.new)
        (K.state sink.old) (K.state sink.new) status) }
    ensures exact { IfOk result (IsExact (texts_of_strings arguments.now) (S.state source.old)
        (S.state source.new) (K.state sink.old) (K.state sink.new)) }
    ensures limit { IfOk result (IsExactAtLimit (texts_of_strings arguments.now)
        (S.state source.old) (S.state source.new) (K.state sink.old) (K.state sink.new)) }
    ensures note { IfOk result (λ status.
        IsOffered (E.state notes.old) (E.state notes.new) (note_of status)) }
    ensures unchanged { OnErr result ((source.new ≡ source.old) × (sink.new ≡ sink.old)
        × (notes.new ≡ notes.old)) }
{
    let lent = lent_texts(alloc, arguments)?;
    Ok(program(rt, alloc, &lent, source, sink, notes, gate))
}

/// Writes a text that was asked for, and returns how that ended.
fn show<K: Sink, E: Sink>(text: &str, sink: &mut K, notes: &mut E) -> Status
    ensures shown { IsShown text.now (K.state sink.old) (K.state sink.new) result }
    ensures note { IsOffered (E.state notes.old) (E.state notes.new) (note_of result) }
{
    match put_all(sink, text.as_bytes()) {
        Ok(()) => end_with(Status::Done, notes),
        Err(_) => end_with(Status::WriteFault, notes),
    }
}

/// Offers the line of a status to the notes, and returns the status.
pub fn end_with<E: Sink>(status: Status, notes: &mut E) -> Status
    ensures status { result ≡ status }
    ensures note { IsOffered (E.state notes.old) (E.state notes.new) (note_of status) }
{
    offer_note(&status, notes);
    status
}
