//! Counts of faults that never fall, and calls of which some are told to fail.
//!
//! Sources and sinks of bytes count their faults so, and doors their refusals: who sees a call fail can read off the
//! count who is to blame. A count that has reached the greatest number stays there, so counting can't fail itself.
#![tactic(auto)]

mod calls;

pub use calls::Calls;
