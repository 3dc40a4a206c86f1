//! What the arguments ask for.

ghost use Rattle.std.specs.Prelude.{◌≡◌, ◌↔◌, IfSome, IsTrue, Some};
ghost use Rattle.arguments.specs.Request.{AskFor, IsLawfulRequest, IsOnly, texts};
ghost use Rattle.arguments.specs.declared.request.Request.{Request as RequestOf};

use crate::drill::{Drill, drill_in};
use crate::editing::{Editing, editing_in};
use crate::options::{Options, options_in};

/// What the program is asked for.
#[derive(Clone, Copy, Debug, PartialEq, Eq)]
pub enum Request {
    /// The text of the help.
    Help,
    /// The version.
    Version,
    /// A run of the script that is read, with these options.
    Run(Options),
    /// A drill, which reads nothing.
    Drill(Drill),
    /// Several editors of one world, which read nothing.
    Edit(Editing),
    /// The wire of the script that is read: its patches as bytes.
    Wire,
    /// The text of what the wire that is read leads to.
    Mirror,
}

/// Returns what the arguments behind the program's name ask for, if they ask for something. Its options and numbers are
/// in their ranges.
pub fn request_in(arguments: &[&str]) -> Option<Request>
    ensures asked { (request : RequestOf) → AskFor (texts arguments.now) request
        ↔ (result ≡ Some request) }
    ensures lawful { IfSome result IsLawfulRequest }
{
    if is_only("--help", arguments) {
        Some(Request::Help)
    } else if is_only("--version", arguments) {
        Some(Request::Version)
    } else if is_only("wire", arguments) {
        Some(Request::Wire)
    } else if is_only("mirror", arguments) {
        Some(Request::Mirror)
    } else if let Some(drill) = drill_in(arguments) {
        Some(Request::Drill(drill))
    } else if let Some(editing) = editing_in(arguments) {
        Some(Request::Edit(editing))
    } else if let Some(options) = options_in(arguments) {
        Some(Request::Run(options))
    } else {
        None
    }
}

/// Returns whether the arguments are this one alone.
#[tactic(auto, using(crate::proofs::RequestLemmas::is_only_one))]
pub fn is_only(argument: &str, arguments: &[&str]) -> bool
    ensures { IsTrue result ↔ IsOnly argument.now (texts arguments.now) }
{
    match arguments {
        [first] => *first == argument,
        _ => false,
    }
}
