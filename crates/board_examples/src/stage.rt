//! Steps that are played on a board.

use crate::asserts::{expect_made, rely_on};
use crate::events::apply;
use crate::leaves::{Leaves, Place, are_blocks, are_nodes, place};
use block_mesh::{Brick, Done};
use cells::Cases;
use mesh_jobs::{Board, Verdict, settle};
use snapshots::Patch;
use std::alloc::Global;
use std::process::Abort;
use std::sync::Arc;
use terra_events::{ApplyFault, Event};

/// A journal has room for so many events.
const EVENTS: usize = 65_535;

/// How many bricks are taken at most, to find a leaf's.
const MOST: usize = 100;

/// What is done to a board, and what is expected of it then.
#[derive(Clone, Copy)]
pub enum Step {
    /// Applies an event.
    Apply(Event),
    /// Applies an event until the journal is full.
    Fill(Event),
    /// Applies an event to a full journal, which is refused; all leaves are fresh.
    Refuse(Event),
    /// Takes bricks until none is left: those of these leaves, in order.
    Take(Leaves),
    /// Takes bricks up to that of a leaf, and keeps its result.
    Make(Place),
    /// Delivers that result, once more if need be.
    Deliver(Verdict),
    /// Makes wanted what is out.
    Recall,
    /// Meshes all leaves that aren't fresh.
    Settle,
    /// Marks the journal.
    Mark,
    /// Looks at the patch, for which all leaves are fresh.
    Patch(Change),
}

/// What a patch has: how many events the frame has and how many come next, the leaves whose blocks it puts, and those
/// that are gone.
#[derive(Clone, Copy)]
pub struct Change {
    pub base: u32,
    pub events: usize,
    pub put: Leaves,
    pub gone: Leaves,
}

/// Does some steps on a board, and returns the number of the first one after which not all is as the step expects it,
/// if there is one.
pub fn first_wrong(
    rt: &impl Abort,
    alloc: Global,
    cases: &Cases,
    board: &mut Board,
    steps: &[Step],
) -> Option<usize> {
    let mut made = None;
    let wrong = first_wrong_with(rt, alloc, cases, board, &mut made, steps);
    drop(made);
    wrong
}

/// Does the same, where what one step makes is kept for those after it.
fn first_wrong_with(
    rt: &impl Abort,
    alloc: Global,
    cases: &Cases,
    board: &mut Board,
    made: &mut Option<Done>,
    steps: &[Step],
) -> Option<usize> {
    for (number, step) in steps.iter().enumerate() {
        if !play(rt, alloc, cases, board, made, *step) {
            return Some(number);
        }
    }
    None
}

/// Does a step, and returns whether all is as the step expects it.
fn play(
    rt: &impl Abort,
    alloc: Global,
    cases: &Cases,
    board: &mut Board,
    made: &mut Option<Done>,
    step: Step,
) -> bool {
    match step {
        Step::Apply(event) => expect_made(rt, apply(alloc, board, event)),
        Step::Fill(event) => fill(rt, alloc, board, event),
        Step::Refuse(event) => refuses(alloc, board, event),
        Step::Take(leaves) => takes(rt, alloc, board, leaves.places()),
        Step::Make(leaf) => make(rt, alloc, cases, board, made, leaf),
        Step::Deliver(verdict) => delivers(rt, board, made, verdict),
        Step::Recall => {
            board.recall();
            true
        }
        Step::Settle => {
            expect_made(rt, settle(alloc, cases, board));
            board.ready()
        }
        Step::Mark => {
            board.mark_published();
            true
        }
        Step::Patch(change) => board.ready() && changes(rt, alloc, board, change),
    }
}

fn fill(rt: &impl Abort, alloc: Global, board: &mut Board, event: Event) -> bool {
    let count = board.world().events().len();
    for _ in count..EVENTS {
        expect_made(rt, apply(alloc, board, event));
    }
    board.world().events().len() == EVENTS
}

fn refuses(alloc: Global, board: &mut Board, event: Event) -> bool {
    let refused = apply(alloc, board, event).err();
    refused == Some(ApplyFault::Full) && board.world().events().len() == EVENTS && board.ready()
}

/// Takes a brick, and returns the place of its leaf, if there is one.
fn take_one(rt: &impl Abort, alloc: Global, board: &mut Board) -> Option<Place> {
    let brick = expect_made(rt, board.take(alloc))?;
    let leaf = place(brick.node());
    drop(brick);
    Some(leaf)
}

fn takes(rt: &impl Abort, alloc: Global, board: &mut Board, leaves: &[Place]) -> bool {
    for leaf in leaves {
        if take_one(rt, alloc, board) != Some(*leaf) {
            return false;
        }
    }
    take_one(rt, alloc, board).is_none()
}

/// Takes bricks up to that of a leaf, and returns it, if it comes.
fn take_up_to(rt: &impl Abort, alloc: Global, board: &mut Board, leaf: Place) -> Option<Brick> {
    for _ in 0..MOST {
        let brick = expect_made(rt, board.take(alloc))?;
        if place(brick.node()) == leaf {
            return Some(brick);
        }
        drop(brick);
    }
    None
}

fn make(
    rt: &impl Abort,
    alloc: Global,
    cases: &Cases,
    board: &mut Board,
    made: &mut Option<Done>,
    leaf: Place,
) -> bool {
    let Some(brick) = take_up_to(rt, alloc, board, leaf) else {
        return false;
    };
    *made = Some(expect_made(rt, Done::make(alloc, cases, brick)));
    true
}

fn delivers(rt: &impl Abort, board: &mut Board, made: &Option<Done>, verdict: Verdict) -> bool {
    let Some(made) = made else {
        return false;
    };
    let done = expect_made(rt, Arc::try_clone(made.block()));
    board.deliver(made.brick(), done) == verdict
}

/// Returns the patch of a board, of which all leaves have to be fresh.
pub fn patch(rt: &impl Abort, alloc: Global, board: &Board) -> Patch {
    rely_on(rt, "fresh leaves", board.ready());
    expect_made(rt, board.patch(alloc))
}

fn changes(rt: &impl Abort, alloc: Global, board: &Board, change: Change) -> bool {
    let patch = patch(rt, alloc, board);
    let is_same = is_change(&patch, change);
    drop(patch);
    is_same
}

/// Returns whether a patch has what a change says.
fn is_change(patch: &Patch, change: Change) -> bool {
    patch.base == change.base
        && patch.events.len() == change.events
        && are_blocks(&patch.put, change.put.places())
        && are_nodes(&patch.gone, change.gone.places())
}
