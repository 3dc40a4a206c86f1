//! The forms of commands: their names, their members, and the command that members say.
//!
//! A form is known by the member `do`. Each has a fixed list of members that are required, and at most one more that
//! may be absent; values are looked at only when the names are right, so that the first fault of a line is the same for
//! each reader. A new command is a case of `Form` and of `form_command` in `specs/Reading.antt`.

ghost use Rattle.std.specs.Prelude.{◌≡◌, Ok, Err, MatchResult, map};
ghost use Rattle.serde_json.specs.View.{members_view};
ghost use Rattle.lattice.specs.Settings.{IsSettings};
ghost use Rattle.camera_script.specs.Reading.{form_in, form_named, form_names, form_command, optional_names};

use crate::commands::Command;
use crate::fault::LineFault;
use crate::members::{Object, member};
use crate::values::{Place, box_in, mode_in, number_in, number_or, place_in, point_in, truth_or};
use lattice::{Region, Settings};
use terrain::{Brush, Event, MAX_VIEWS};

/// The greatest number of a viewpoint.
const LAST_VIEW: u32 = MAX_VIEWS as u32 - 1;

/// The form of a command, by the text of its member `do`.
#[derive(Clone, Copy)]
pub(crate) enum Form {
    Box,
    Ball,
    Ground,
    Smooth,
    Camera,
    Away,
    Undo,
    Shot,
    Stats,
    Pick,
}

impl Form {
    /// Returns the form of the command that an object is, or the fault of its member `do`.
    pub(crate) fn of(object: &Object) -> Result<Form, LineFault>
        ensures { result ≡ form_in (members_view object.now.entries) }
    {
        let Some(value) = member(object, "do") else {
            return Err(LineFault::MissingMember);
        };
        value
            .as_str()
            .and_then(Form::named)
            .ok_or(LineFault::UnknownCommand)
    }

    /// Returns the form whose commands have this text as `do`.
    fn named(text: &str) -> Option<Form>
        ensures { result ≡ form_named text.now }
    {
        match text {
            "box" => Some(Form::Box),
            "ball" => Some(Form::Ball),
            "ground" => Some(Form::Ground),
            "smooth" => Some(Form::Smooth),
            "camera" => Some(Form::Camera),
            "away" => Some(Form::Away),
            "undo" => Some(Form::Undo),
            "shot" => Some(Form::Shot),
            "stats" => Some(Form::Stats),
            "pick" => Some(Form::Pick),
            _ => None,
        }
    }

    /// Returns the names of the form's required members.
    pub(crate) fn names(self) -> &'static [&'static str]
        ensures { map (λ name. name.now) result.now ≡ form_names self }
    {
        match self {
            Form::Box => &["do", "mode", "lo", "hi"],
            Form::Ball => &["do", "mode", "at", "r"],
            Form::Ground => &["do", "mode", "h"],
            Form::Smooth => &["do", "lo", "hi"],
            Form::Camera | Form::Pick => &["do", "at"],
            Form::Away => &["do", "view"],
            Form::Undo | Form::Shot | Form::Stats => &["do"],
        }
    }

    /// Returns the names of the form's members that may be absent.
    pub(crate) fn optional_names(self) -> &'static [&'static str]
        ensures { map (λ name. name.now) result.now ≡ optional_names self }
    {
        match self {
            Form::Camera => &["view"],
            Form::Shot => &["normals"],
            _ => &[],
        }
    }

    /// Returns the command that an object of this form says, where each value is of its kind.
    pub(crate) fn command(self, object: &Object, settings: &Settings) -> Option<Command>
        requires { IsSettings settings.now }
        ensures { result ≡ form_command settings.now.depth self (members_view object.now.entries) }
    {
        match self {
            Form::Box => cuboid(object, settings),
            Form::Ball => ball(object, settings),
            Form::Ground => ground(object, settings),
            Form::Smooth => smooth(object, settings),
            Form::Camera => camera(object, settings),
            Form::Away => away(object, settings),
            Form::Undo => Some(Command::Event(Event::Undo)),
            Form::Shot => shot(object, settings),
            Form::Stats => Some(Command::Stats),
            Form::Pick => pick(object, settings),
        }
    }
}

/// Returns the edit that fills or carves a box.
#[tactic(auto, unfolding(crate::specs::Reading::form_command))]
fn cuboid(object: &Object, settings: &Settings) -> Option<Command>
    requires { IsSettings settings.now }
    ensures { result
        ≡ form_command settings.now.depth Form.Box (members_view object.now.entries) }
{
    let mode = mode_in(object)?;
    let Region { lo, hi } = box_in(object, settings)?;
    Some(edit(Brush::Cuboid { mode, lo, hi }))
}

/// Returns the edit that fills or carves a ball.
#[tactic(auto, unfolding(crate::specs::Reading::form_command))]
fn ball(object: &Object, settings: &Settings) -> Option<Command>
    requires { IsSettings settings.now }
    ensures { result
        ≡ form_command settings.now.depth Form.Ball (members_view object.now.entries) }
{
    let mode = mode_in(object)?;
    let at = point_in(object, "at", settings)?;
    let r = number_in(object, "r", 1, settings.world_side())?;
    Some(edit(Brush::Ball { mode, at, r }))
}

/// Returns the edit that fills or carves all up to a height.
#[tactic(auto, unfolding(crate::specs::Reading::form_command))]
fn ground(object: &Object, settings: &Settings) -> Option<Command>
    requires { IsSettings settings.now }
    ensures { result
        ≡ form_command settings.now.depth Form.Ground (members_view object.now.entries) }
{
    let mode = mode_in(object)?;
    let h = number_in(object, "h", 0, settings.world_side())?;
    Some(edit(Brush::Ground { mode, h }))
}

/// Returns the edit that smooths a box.
#[tactic(auto, unfolding(crate::specs::Reading::form_command))]
fn smooth(object: &Object, settings: &Settings) -> Option<Command>
    requires { IsSettings settings.now }
    ensures { result
        ≡ form_command settings.now.depth Form.Smooth (members_view object.now.entries) }
{
    let Region { lo, hi } = box_in(object, settings)?;
    Some(edit(Brush::Smooth { lo, hi }))
}

/// Returns the event that puts a viewpoint at a point: the one that is named, or the one with the number 0.
#[tactic(auto, unfolding(crate::specs::Reading::form_command))]
fn camera(object: &Object, settings: &Settings) -> Option<Command>
    requires { IsSettings settings.now }
    ensures { result
        ≡ form_command settings.now.depth Form.Camera (members_view object.now.entries) }
{
    let view = number_or(object, "view", 0, LAST_VIEW, 0)?;
    let at = point_in(object, "at", settings)?;
    Some(Command::Event(Event::Camera {
        view: view as u8,
        at,
    }))
}

/// Returns the event that takes a viewpoint away.
#[tactic(auto, unfolding(crate::specs::Reading::form_command))]
fn away(object: &Object, settings: &Settings) -> Option<Command>
    requires { IsSettings settings.now }
    ensures { result
        ≡ form_command settings.now.depth Form.Away (members_view object.now.entries) }
{
    let view = number_in(object, "view", 0, LAST_VIEW)?;
    Some(Command::Event(Event::Away { view: view as u8 }))
}

/// Returns the shot, with the normals of its vertices if they are asked for.
#[tactic(auto, unfolding(crate::specs::Reading::form_command))]
fn shot(object: &Object, settings: &Settings) -> Option<Command>
    requires { IsSettings settings.now }
    ensures { result
        ≡ form_command settings.now.depth Form.Shot (members_view object.now.entries) }
{
    let normals = truth_or(object, "normals", false)?;
    Some(Command::Shot { normals })
}

/// Returns the pick over a place.
#[tactic(auto, unfolding(crate::specs::Reading::form_command))]
fn pick(object: &Object, settings: &Settings) -> Option<Command>
    requires { IsSettings settings.now }
    ensures { result
        ≡ form_command settings.now.depth Form.Pick (members_view object.now.entries) }
{
    let Place { x, y } = place_in(object, "at", settings)?;
    Some(Command::Pick { x, y })
}

/// Returns the command of an edit.
fn edit(brush: Brush) -> Command
    ensures { result ≡ Command.Event (Event.Edit brush) }
{
    Command::Event(Event::Edit(brush))
}
