//! Tests of what comes in, each by its public calls: sources and sinks of bytes, lines of scripts, drills, arguments of
//! the program, and the events of several editors, by a mail.
//!
//! - `streams` has sources and sinks, `lines` lines of scripts, `worked_drills` drills, `options` arguments.
//! - A mail: `office` has one with its clerk and its editors on one thread, `played` plays on it, `beside` has editors
//!   in threads of their own, and `limit` has as many events as a journal may have.
//!
//! The expected values are worked out by hand from the rules, or come from programs that share no code with this one.
#![tactic(auto)]

#[cfg(test)]
mod asserts;
#[cfg(test)]
mod beside;
#[cfg(test)]
mod limit;
#[cfg(test)]
mod lines;
#[cfg(test)]
mod office;
#[cfg(test)]
mod options;
#[cfg(test)]
mod played;
#[cfg(test)]
mod streams;
#[cfg(test)]
mod worked_drills;
