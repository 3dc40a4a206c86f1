//! The arguments that ask for a run, and its options.
//!
//! Options are read one after another, in any order, each at most once (`Given`), and those that aren't given have
//! their defaults (`with_defaults`). A new option is a field of `Options` and of `Given`, a method as `and_looks`, and
//! a case of `IsNextOption`.

ghost use Rattle.std.specs.Prelude.{◌≡◌, ◌↔◌, IfSome, Some};
ghost use Rattle.arguments.specs.Options.{AreAllowed, Gives, GivesLooks, GivesWatchers, GivesWorkers, IsAllowed, IsNextOption, IsRun, nothing_given, with_defaults};
ghost use Rattle.arguments.specs.Request.{texts};
ghost use Rattle.arguments.specs.declared.options.Given.{Given as GivenOf};
ghost use Rattle.arguments.specs.declared.options.Options.{Options as OptionsOf};

use crate::number::number_in;

/// How many standing workers a run may have.
pub const MAX_WORKERS: u8 = 16;

/// How many watchers a run may have.
pub const MAX_WATCHERS: u8 = 8;

/// How often each watcher may look.
pub const MAX_LOOKS: u32 = 1000;

/// How often each watcher looks where the arguments don't say.
pub const DEFAULT_LOOKS: u32 = 20;

/// The options of a run.
#[derive(Clone, Copy, Debug, PartialEq, Eq)]
pub struct Options {
    /// How many standing workers there are, at most `MAX_WORKERS`. Where there is none, leaves are meshed at outputs.
    pub workers: u8,
    /// How many watchers there are, at most `MAX_WATCHERS`.
    pub watchers: u8,
    /// How often each watcher looks, from 1 to `MAX_LOOKS`.
    pub looks: u32,
}

/// The values of the options that were given so far.
#[derive(Clone, Copy, Debug, PartialEq, Eq)]
pub(crate) struct Given {
    pub workers: Option<u32>,
    pub watchers: Option<u32>,
    pub looks: Option<u32>,
}

/// Returns the options that the arguments give: `run`, and then `--workers`, `--watch` and `--looks`, each at most once
/// and with a plain decimal number in its range behind it, in any order. Other arguments give none.
pub(crate) fn options_in(arguments: &[&str]) -> Option<Options>
    ensures asked { (asked : OptionsOf) → IsRun (texts arguments.now) asked
        ↔ (result ≡ Some asked) }
    ensures allowed { IfSome result IsAllowed }
{
    let (form, rest) = arguments.split_first()?;
    if *form != "run" {
        return None;
    }
    Some(given_in(rest)?.with_defaults())
}

/// Returns what the arguments behind `run` give.
fn given_in(arguments: &[&str]) -> Option<Given>
    ensures given { (given : GivenOf) → Gives nothing_given (texts arguments.now) given
        ↔ (result ≡ Some given) }
    ensures allowed { IfSome result AreAllowed }
{
    let mut given = Given {
        workers: None,
        watchers: None,
        looks: None,
    };
    let mut rest = arguments;
    while let [name, value, behind @ ..] = rest {
        given = given.and(name, value)?;
        rest = behind;
    }
    if rest.is_empty() { Some(given) } else { None }
}

impl Given {
    /// Returns what is given with one option more, if there is such an option, it wasn't given before, and its value is
    /// in its range.
    fn and(self, name: &str, value: &str) -> Option<Given>
        requires { AreAllowed self }
        ensures given { (given : GivenOf) → IsNextOption self name.now value.now given
            ↔ (result ≡ Some given) }
        ensures allowed { IfSome result AreAllowed }
    {
        match name {
            "--workers" => self.and_workers(value),
            "--watch" => self.and_watchers(value),
            "--looks" => self.and_looks(value),
            _ => None,
        }
    }

    /// Returns what is given with a number of workers more.
    fn and_workers(self, value: &str) -> Option<Given>
        requires { AreAllowed self }
        ensures given { (given : GivenOf) → GivesWorkers self value.now given
            ↔ (result ≡ Some given) }
        ensures allowed { IfSome result AreAllowed }
    {
        if self.workers.is_some() {
            return None;
        }
        let count = number_in(value, 0, u32::from(MAX_WORKERS))?;
        Some(Given {
            workers: Some(count),
            ..self
        })
    }

    /// Returns what is given with a number of watchers more.
    fn and_watchers(self, value: &str) -> Option<Given>
        requires { AreAllowed self }
        ensures given { (given : GivenOf) → GivesWatchers self value.now given
            ↔ (result ≡ Some given) }
        ensures allowed { IfSome result AreAllowed }
    {
        if self.watchers.is_some() {
            return None;
        }
        let count = number_in(value, 0, u32::from(MAX_WATCHERS))?;
        Some(Given {
            watchers: Some(count),
            ..self
        })
    }

    /// Returns what is given with a number of looks more.
    fn and_looks(self, value: &str) -> Option<Given>
        requires { AreAllowed self }
        ensures given { (given : GivenOf) → GivesLooks self value.now given
            ↔ (result ≡ Some given) }
        ensures allowed { IfSome result AreAllowed }
    {
        if self.looks.is_some() {
            return None;
        }
        let count = number_in(value, 1, MAX_LOOKS)?;
        Some(Given {
            looks: Some(count),
            ..self
        })
    }

    /// Returns the options, with the default of each that isn't given.
    fn with_defaults(self) -> Options
        requires { AreAllowed self }
        ensures value { result ≡ with_defaults self }
        ensures allowed { IsAllowed result }
    {
        Options {
            workers: self.workers.unwrap_or(0) as u8,
            watchers: self.watchers.unwrap_or(0) as u8,
            looks: self.looks.unwrap_or(DEFAULT_LOOKS),
        }
    }
}
