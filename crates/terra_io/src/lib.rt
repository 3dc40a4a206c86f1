//! Sources and sinks of bytes, each with a count of its faults.
//!
//! The count rises at each call that fails and at no other, so whether the input or the output is to blame can be
//! read off the count. The bytes that a source has left and that a sink holds are told by the objects in memory, and
//! by no adapter over a real stream.
//!
//! A coordinate is written to a sink here too; the crate `digits` makes its text.
#![tactic(auto)]

mod adapters;
mod failed;
mod laws;
mod mem_sink;
mod mem_source;
mod pieces;
mod room;
mod sink;
mod source;
mod units;

pub use adapters::{ReaderSource, WriterSink};
pub use failed::Failed;
pub use laws::counts_never_fall;
pub use mem_sink::MemSink;
pub use mem_source::{MemSource, PlainSource};
pub use sink::{Sink, put_all};
pub use source::Source;
pub use units::put_units;
