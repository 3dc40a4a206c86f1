//! Several editors of one world, each in a thread of its own: their lists follow from the arguments alone.

ghost use Rattle.std.specs.Prelude.{◌≡◌, ◌≤◌, ◌++◌, [], ◌∷◌, ℕ, true, All, IfOk, List, OnOk, map};
ghost use Rattle.arguments.specs.Editing.{IsLawfulEditing};
ghost use Rattle.lattice.specs.Settings.{IsSettings};
ghost use Rattle.mesh_board.specs.Board.{marked_events};
ghost use Rattle.mesh_out.specs.Text.{stats_text};
ghost use Rattle.snapshots.specs.Stats.{stats_of};
ghost use Rattle.requests.specs.Edited.{AreEditors, AreEditorsWith, HaveEdited, IsEditedBy, edited_text, edited_world, lists_below, owner_lines, sent_by_editor};
ghost use Rattle.script_play.specs.Script.{events_by};
ghost use Rattle.terrain.specs.Blocks.{scratch};
ghost use Rattle.terrain.specs.History.{IsLawfulEvent};

use arguments::Editing;
use camera_script::Command;
use cells::Cases;
use drills::{DRILL_REACH, drill_script};
use editors::{Reader, write_beside};
use gates::MeshGate;
use itoa::Buffer;
use lattice::Settings;
use mesh_jobs::{Board, Bulk, Mesher};
use mesh_out::push_stats;
use published_frames::{PlainDoor, begin};
use scenes::catch_up;
use script_play::Status;
use snapshots::Stats;
use std::alloc::{AllocError, Global};
use std::sync::Wait;
use std::thread::Threads;
use terra_io::{Sink, put_all};
use terrain::Event;

/// A world that reads events, and what meshes its leaves. Once memory ran out it goes on reading, for nothing: editors
/// that nobody reads would wait for ever.
#[derive(Drop)]
struct EditedWorld<'a> {
    alloc: Global,
    board: Board,
    mesher: Bulk<'a>,
    /// Whether all events that were read are in the world.
    is_whole: bool,
}

impl Reader for EditedWorld<'_> {
    ghost depth = { λ edited. edited.board.world.settings.depth };

    ghost has_read = { λ first events edited.
        (edited.board.world.settings ≡ first.board.world.settings)
        × (edited.board.marked ≡ first.board.marked)
        × (edited.is_whole ≡ true
        → edited.board.world.events ≡ first.board.world.events ++ events) };

    fn read(&mut self, event: Event) {
        if self.is_whole {
            // The editors undo nothing, and have room in the journal: memory ran out is all that an error can be.
            self.is_whole = self.board.apply(self.alloc, event).is_ok();
            let _ = self.mesher.feed(self.alloc, &mut self.board);
        }
    }
}

/// Has several editors edit one world, and returns how that ended: `Done`, `NoMemory`, or `WriteFault` where a write
/// failed. The gate is told of each editor before its first event.
pub fn carry_out_editing<K: Sink, G: MeshGate, R: Threads + Wait + Sync>(
    rt: &R,
    alloc: Global,
    asked: Editing,
    sink: &mut K,
    gate: &G,
) -> Status
    requires { IsLawfulEditing asked }
    ensures { HaveEdited asked (K.state sink.old) (K.state sink.new) result }
{
    let Ok(text) = text_of_editors(rt, alloc, asked, gate) else {
        return Status::NoMemory;
    };
    match put_all(sink, &text) {
        Ok(()) => Status::Done,
        Err(_) => Status::WriteFault,
    }
}

/// Has several editors edit one world, and returns the text that tells who made each event, with the line of stats
/// behind that. Out of memory is the only error.
fn text_of_editors<G: MeshGate, R: Threads + Wait + Sync>(
    rt: &R,
    alloc: Global,
    asked: Editing,
    gate: &G,
) -> Result<Vec<u8>, AllocError>
    requires { IsLawfulEditing asked }
    ensures { IfOk result (λ text. (owners : List ℕ) × AreEditors asked owners
        × (text.items ≡ edited_text asked owners)) }
{
    let cases = Cases::new(alloc)?;
    let lists = all_lists(alloc, asked)?;
    let (owners, stats) = edit_beside(rt, alloc, asked, &cases, &lists, gate)?;
    text_of_owners(alloc, &owners, stats)
}

/// Has several editors send these lists to one world, and returns the owners of its events, one after another, and the
/// stats of its frame behind them. Out of memory is the only error.
fn edit_beside<G: MeshGate, R: Threads + Wait + Sync>(
    rt: &R,
    alloc: Global,
    asked: Editing,
    cases: &Cases,
    lists: &[Vec<Event>],
    gate: &G,
) -> Result<(Vec<u8>, Stats), AllocError>
    requires asked { IsLawfulEditing asked }
    requires lists { map (λ list. list.items) lists.now ≡ lists_below asked asked.editors }
    requires lawful { All (λ list. All (IsLawfulEvent asked.depth) list.items) lists.now }
    ensures { IfOk result (λ edited. AreEditorsWith asked edited.0.items edited.1) }
{
    let settings = settings_of(asked);
    let world = EditedWorld {
        alloc,
        board: Board::new(alloc, cases, settings)?,
        mesher: Bulk::new(cases),
        is_whole: true,
    };
    let (owners, mut edited) = write_beside(rt, alloc, settings, lists, gate, world);
    let found = with_stats(rt, alloc, cases, asked, owners, &mut edited);
    drop(edited);
    found
}

/// Returns the settings of the world that is edited.
fn settings_of(asked: Editing) -> Settings
    ensures { result ≡ edited_world asked }
{
    Settings {
        depth: asked.depth,
        reach: DRILL_REACH,
    }
}

/// Returns the owners of the events that an edited world read, and the stats of its frame behind them. Out of memory is
/// the only error.
fn with_stats<R: Threads + Wait + Sync>(
    rt: &R,
    alloc: Global,
    cases: &Cases,
    asked: Editing,
    owners: Result<Vec<u8>, AllocError>,
    edited: &mut EditedWorld<'_>,
) -> Result<(Vec<u8>, Stats), AllocError>
    requires asked { IsLawfulEditing asked }
    requires edited { IfOk owners (λ owners.
        IsEditedBy asked owners.items edited.old.board edited.old.is_whole) }
    ensures { IfOk result (λ found. AreEditorsWith asked found.0.items found.1) }
{
    let owners = owners?;
    let stats = stats_of_edited(rt, alloc, cases, settings_of(asked), edited)?;
    Ok((owners, stats))
}

/// Returns the text of these owners and this line of stats. Out of memory is the only error.
fn text_of_owners(alloc: Global, owners: &[u8], stats: Stats) -> Result<Vec<u8>, AllocError>
    ensures { IfOk result (λ text. text.items ≡ owner_lines owners.now ++ stats_text stats) }
{
    let mut text = Vec::new(alloc);
    push_owners(&mut text, owners)?;
    push_stats(&mut text, stats)?;
    Ok(text)
}

/// Returns the events that each editor sends, by the editors' numbers. Out of memory is the only error.
fn all_lists(alloc: Global, asked: Editing) -> Result<Vec<Vec<Event>>, AllocError>
    requires { IsLawfulEditing asked }
    ensures lists { IfOk result (λ lists.
        map (λ list. list.items) lists.items ≡ lists_below asked asked.editors) }
    ensures lawful { IfOk result (λ lists.
        All (λ list. All (IsLawfulEvent asked.depth) list.items) lists.items) }
{
    let mut lists = Vec::with_capacity(alloc, usize::from(asked.editors))?;
    for editor in 0..asked.editors {
        lists.push(list_of_editor(alloc, asked, editor)?)?;
    }
    Ok(lists)
}

/// Returns the events that an editor sends. Out of memory is the only error.
fn list_of_editor(alloc: Global, asked: Editing, editor: u8) -> Result<Vec<Event>, AllocError>
    requires { IsLawfulEditing asked }
    ensures list { IfOk result (λ list. list.items ≡ sent_by_editor asked editor) }
    ensures lawful { IfOk result (λ list. All (IsLawfulEvent asked.depth) list.items) }
{
    let seed = asked.first.wrapping_add(u32::from(editor));
    let commands = drill_script(alloc, seed, asked.edits, asked.depth)?;
    let mut events = Vec::with_capacity(alloc, commands.len())?;
    for command in &commands {
        push_event(&mut events, command)?;
    }
    Ok(events)
}

/// Appends the event of a command, if it is one. Out of memory is the only error.
fn push_event(events: &mut Vec<Event>, command: &Command) -> Result<(), AllocError>
    ensures { OnOk result (events.new.items ≡ events.old.items ++ events_by command.now) }
{
    if let Command::Event(event) = command {
        events.push(*event)?;
    }
    Ok(())
}

/// Returns the stats of the frame of an edited world, which is published for that, where all events are in the world.
/// Out of memory is the only error.
fn stats_of_edited<R: Threads + Wait + Sync>(
    rt: &R,
    alloc: Global,
    cases: &Cases,
    settings: Settings,
    edited: &mut EditedWorld<'_>,
) -> Result<Stats, AllocError>
    requires allowed { IsSettings settings }
    requires settings { edited.old.board.world.settings ≡ settings }
    requires unmarked { edited.old.board.marked ≡ 0 }
    ensures whole { OnOk result (edited.old.is_whole ≡ true) }
    ensures stats { IfOk result (λ stats. stats
        ≡ stats_of (scratch settings edited.old.board.world.events)) }
{
    if !edited.is_whole {
        return Err(AllocError);
    }
    published_stats(rt, alloc, cases, settings, edited)
}

/// Publishes the frame of an edited world, and returns its stats. Out of memory is the only error.
fn published_stats<R: Threads + Wait + Sync>(
    rt: &R,
    alloc: Global,
    cases: &Cases,
    settings: Settings,
    edited: &mut EditedWorld<'_>,
) -> Result<Stats, AllocError>
    requires allowed { IsSettings settings }
    requires settings { edited.old.board.world.settings ≡ settings }
    requires unmarked { edited.old.board.marked ≡ 0 }
    ensures { IfOk result (λ stats. stats
        ≡ stats_of (scratch settings edited.old.board.world.events)) }
{
    let mut door = PlainDoor::new();
    let Ok((mut publisher, _)) = begin(rt, alloc, &mut door, cases, settings, 0) else {
        return Err(AllocError);
    };
    let published = catch_up(
        rt,
        alloc,
        &mut edited.board,
        &mut publisher,
        &mut edited.mesher,
    );
    let stats = publisher.shown().stats();
    publisher.close(rt);
    published?;
    Ok(stats)
}

/// Appends a line for each of these owners. Out of memory is the only error.
fn push_owners(out: &mut Vec<u8>, owners: &[u8]) -> Result<(), AllocError>
    ensures { OnOk result (out.new.items ≡ out.old.items ++ owner_lines owners.now) }
{
    for owner in owners {
        push_owner(out, *owner)?;
    }
    Ok(())
}

/// Appends the line of an owner. Out of memory is the only error.
fn push_owner(out: &mut Vec<u8>, owner: u8) -> Result<(), AllocError>
    ensures { OnOk result (out.new.items ≡ out.old.items ++ owner_lines (owner ∷ [])) }
{
    out.extend_from_slice(b"# from ")?;
    let mut buffer = Buffer::new();
    out.extend_from_slice(buffer.format(owner).as_bytes())?;
    out.extend_from_slice(b"\n")
}
