//! Steps on boards of the small world.

use crate::asserts::{expect, expect_made};
use crate::events::{
    CARVE_ALL, CARVE_INSIDE, FILL_BESIDE, FILL_FAR, FILL_GROUND, FILL_INSIDE, FILL_MIDDLE,
    SEE_HIGH, SEE_LOW,
};
use crate::leaves::{Leaves, Place};
use crate::stage::{Change, Step, first_wrong};
use cells::Cases;
use lattice::Settings;
use mesh_jobs::{Board, Verdict};
use std::alloc::Global;
use std::process::Abort;
use terra_events::Event;

/// The world of depth 2 whose levels are chosen near the camera alone.
const SMALL: Settings = Settings { depth: 2, reach: 1 };

/// A case's name, and the steps that are played on a board of the small world before any event.
type Play = (&'static str, &'static [Step]);

/// Asserts that a new board is as each of some steps expects it.
fn expect_steps(rt: &impl Abort, alloc: Global, cases: &Cases, play: &Play) {
    let mut board = expect_made(rt, Board::new(alloc, cases, SMALL));
    let wrong = first_wrong(rt, alloc, cases, &mut board, play.1);
    drop(board);
    expect(rt, play.0, wrong, None);
}

/// Asserts the same of each of some plays.
fn expect_all(rt: &impl Abort, alloc: Global, plays: &[Play]) {
    let cases = expect_made(rt, Cases::new(alloc));
    for play in plays {
        expect_steps(rt, alloc, &cases, play);
    }
    drop(cases);
}

const FIRST_CAMERA: [Step; 4] = [
    Step::Apply(SEE_LOW),
    Step::Take(Leaves::Low),
    Step::Recall,
    Step::Take(Leaves::Low),
];

/// The second camera splits other nodes beside the six leaves that stay.
const OTHER_CAMERA: [Step; 4] = [
    Step::Apply(SEE_LOW),
    Step::Settle,
    Step::Apply(SEE_HIGH),
    Step::Take(Leaves::High),
];

const SAME_CAMERA: [Step; 4] = [
    Step::Apply(SEE_LOW),
    Step::Settle,
    Step::Apply(SEE_LOW),
    Step::Take(Leaves::None),
];

const FILL: [Step; 4] = [
    Step::Apply(SEE_LOW),
    Step::Settle,
    Step::Apply(FILL_INSIDE),
    Step::Take(Leaves::LowEight),
];

/// No sample changes, and the leaves are touched for all that.
const CARVE: [Step; 4] = [
    Step::Apply(SEE_LOW),
    Step::Settle,
    Step::Apply(CARVE_INSIDE),
    Step::Take(Leaves::LowEight),
];

/// An undo wants what the edit wanted, though another event came between.
const UNDO: [Step; 6] = [
    Step::Apply(SEE_LOW),
    Step::Apply(FILL_INSIDE),
    Step::Apply(SEE_LOW),
    Step::Settle,
    Step::Apply(Event::Undo),
    Step::Take(Leaves::LowEight),
];

static WANTED: [Play; 6] = [
    ("a first camera", &FIRST_CAMERA),
    ("another camera", &OTHER_CAMERA),
    ("the same camera", &SAME_CAMERA),
    ("a fill", &FILL),
    ("a carve of nothing", &CARVE),
    ("an undo", &UNDO),
];

#[test]
fn wants_what_an_event_touches_in_the_order_of_nodes(rt: HostRuntime) {
    expect_all(&rt, rt.alloc(), &WANTED);
}

/// The first leaf for a camera in the low corner.
const FIRST: Place = (0, 0, 0, 0);

/// The last one of its level.
const LAST: Place = (0, 1, 1, 1);

/// A leaf of level 1 for both cameras, with another rim for each.
const STAYING: Place = (1, 0, 0, 1);

const AT_ONCE: [Step; 7] = [
    Step::Apply(SEE_LOW),
    Step::Make(FIRST),
    Step::Deliver(Verdict::Kept),
    Step::Deliver(Verdict::Kept),
    Step::Take(Leaves::LowRest),
    Step::Apply(SEE_HIGH),
    Step::Deliver(Verdict::Stale),
];

const EDIT_INSIDE: [Step; 5] = [
    Step::Apply(SEE_LOW),
    Step::Make(FIRST),
    Step::Apply(FILL_INSIDE),
    Step::Deliver(Verdict::Stale),
    Step::Take(Leaves::Low),
];

const EDIT_BESIDE: [Step; 4] = [
    Step::Apply(SEE_LOW),
    Step::Make(FIRST),
    Step::Apply(FILL_BESIDE),
    Step::Deliver(Verdict::Stale),
];

const EDIT_FAR: [Step; 4] = [
    Step::Apply(SEE_LOW),
    Step::Make(FIRST),
    Step::Apply(FILL_FAR),
    Step::Deliver(Verdict::Kept),
];

const EDIT_OF_NOTHING: [Step; 4] = [
    Step::Apply(SEE_LOW),
    Step::Make(FIRST),
    Step::Apply(CARVE_INSIDE),
    Step::Deliver(Verdict::Kept),
];

/// The carve makes the samples what they were.
const EDITS_BACK: [Step; 5] = [
    Step::Apply(SEE_LOW),
    Step::Make(LAST),
    Step::Apply(FILL_MIDDLE),
    Step::Apply(CARVE_ALL),
    Step::Deliver(Verdict::Kept),
];

/// So does an undo.
const EDIT_UNDONE: [Step; 5] = [
    Step::Apply(SEE_LOW),
    Step::Make(LAST),
    Step::Apply(FILL_MIDDLE),
    Step::Apply(Event::Undo),
    Step::Deliver(Verdict::Kept),
];

const OTHER_RIM: [Step; 4] = [
    Step::Apply(SEE_LOW),
    Step::Make(STAYING),
    Step::Apply(SEE_HIGH),
    Step::Deliver(Verdict::Stale),
];

static KEPT: [Play; 8] = [
    ("at once, and once it is no leaf", &AT_ONCE),
    ("after an edit in its leaf", &EDIT_INSIDE),
    ("after an edit beside it", &EDIT_BESIDE),
    ("after an edit far away", &EDIT_FAR),
    ("after a carve of nothing", &EDIT_OF_NOTHING),
    ("after two edits", &EDITS_BACK),
    ("after an edit and an undo", &EDIT_UNDONE),
    ("once its rim is another one", &OTHER_RIM),
];

#[test]
fn keeps_a_result_exactly_where_it_is_the_present_one(rt: HostRuntime) {
    expect_all(&rt, rt.alloc(), &KEPT);
}

const NOTHING: Change = Change {
    base: 1,
    events: 0,
    put: Leaves::None,
    gone: Leaves::None,
};

const AFTER_MARK: [Step; 4] = [
    Step::Apply(SEE_LOW),
    Step::Settle,
    Step::Mark,
    Step::Patch(NOTHING),
];

const EIGHT: Change = Change {
    base: 1,
    events: 1,
    put: Leaves::LowEight,
    gone: Leaves::None,
};

const AFTER_EDIT: [Step; 6] = [
    Step::Apply(SEE_LOW),
    Step::Settle,
    Step::Mark,
    Step::Apply(FILL_INSIDE),
    Step::Settle,
    Step::Patch(EIGHT),
];

const EIGHT_BACK: Change = Change {
    base: 2,
    events: 1,
    put: Leaves::LowEight,
    gone: Leaves::None,
};

const AFTER_UNDO: [Step; 7] = [
    Step::Apply(SEE_LOW),
    Step::Apply(FILL_INSIDE),
    Step::Settle,
    Step::Mark,
    Step::Apply(Event::Undo),
    Step::Settle,
    Step::Patch(EIGHT_BACK),
];

const ACROSS: Change = Change {
    base: 2,
    events: 1,
    put: Leaves::High,
    gone: Leaves::Gone,
};

const AFTER_CAMERA: [Step; 7] = [
    Step::Apply(SEE_LOW),
    Step::Apply(FILL_GROUND),
    Step::Settle,
    Step::Mark,
    Step::Apply(SEE_HIGH),
    Step::Settle,
    Step::Patch(ACROSS),
];

/// Leaves that went and came back are put, though their bricks are what they were.
const BACK: Change = Change {
    base: 1,
    events: 2,
    put: Leaves::Low,
    gone: Leaves::None,
};

const THERE_AND_BACK: [Step; 7] = [
    Step::Apply(SEE_LOW),
    Step::Settle,
    Step::Mark,
    Step::Apply(SEE_HIGH),
    Step::Apply(SEE_LOW),
    Step::Settle,
    Step::Patch(BACK),
];

static PUT: [Play; 5] = [
    ("nothing", &AFTER_MARK),
    ("an edit", &AFTER_EDIT),
    ("an undo", &AFTER_UNDO),
    ("a camera", &AFTER_CAMERA),
    ("there and back", &THERE_AND_BACK),
];

#[test]
fn puts_what_events_touched_and_names_what_is_gone(rt: HostRuntime) {
    expect_all(&rt, rt.alloc(), &PUT);
}

const FULL: [Step; 6] = [
    Step::Apply(SEE_LOW),
    Step::Settle,
    Step::Fill(SEE_LOW),
    Step::Refuse(SEE_HIGH),
    Step::Refuse(FILL_INSIDE),
    Step::Refuse(Event::Undo),
];

static REFUSED: [Play; 1] = [("a full journal", &FULL)];

#[test]
fn refuses_an_event_once_the_journal_is_full(rt: HostRuntime) {
    expect_all(&rt, rt.alloc(), &REFUSED);
}
