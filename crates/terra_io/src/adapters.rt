//! A source over a reader and a sink over a writer of std.

ghost use Rattle.std.specs.Prelude.{◌≡◌, ◌<◌, length, take, IfOk, OnOk, OnErr};
ghost use Rattle.std.specs.Io.{ReadsAtMost, WritesAtMost};
ghost use Rattle.std.specs.Io.KnownBytes as known;
ghost use Rattle.terra_io.specs.Adapters.{Counted, GrowsByPrefix, untold};
ghost use Rattle.fault_counts.specs.Counts.{next_count};
ghost use Rattle.terra_io.specs.Stream.{Fails};

use crate::{Failed, Sink, Source};
use std::io::{self, Read, Write};
use std::marker::Model;

/// A source over a reader. Its count of faults rises at every error of the reader.
///
/// It does not tell what is left: nothing is assumed of the reader.
#[derive(Drop)]
pub struct ReaderSource<R> {
    inner: R,
    faults: u64,
}

impl<R> Model for ReaderSource<R> {
    ghost Value = { Counted R };

    ghost view = { λ source. record { inner = source.inner; faults = source.faults } };
}

impl<R: Read> ReaderSource<R> {
    /// Reads from this reader, with a count of 0.
    pub fn new(inner: R) -> ReaderSource<R>
        ensures { result ≡ record { inner = inner; faults = 0 } }
    {
        ReaderSource { inner, faults: 0 }
    }
}

impl<R: Read> Source for ReaderSource<R> {
    ghost state = { untold };

    // What the reader did, and its errors counted.
    fn read(&mut self, buf: &mut [u8]) -> Result<usize, Failed>
        ensures within { ReadsAtMost result buf.new }
        ensures inner { known.ReadConsumes (R.remaining self.old.inner) (R.remaining self.new.inner)
            result buf.new }
        ensures failed { OnErr result (Fails (untold self.old) (untold self.new)) }
        ensures counted { OnErr result (self.new.faults ≡ next_count self.old.faults) }
        ensures not_counted { OnOk result (self.new.faults ≡ self.old.faults) }
    {
        let result = self.inner.read(buf).map_err(|_| Failed);
        if result.is_err() {
            self.faults = self.faults.saturating_add(1);
        }
        result
    }
}

/// A sink over a writer, which is flushed after each write. Its count of faults rises at every error of the writer.
///
/// It does not tell what was written: nothing is assumed of the writer.
#[derive(Drop)]
pub struct WriterSink<W> {
    inner: W,
    faults: u64,
}

impl<W> Model for WriterSink<W> {
    ghost Value = { Counted W };

    ghost view = { λ sink. record { inner = sink.inner; faults = sink.faults } };
}

impl<W: Write> WriterSink<W> {
    /// Writes to this writer, with a count of 0.
    pub fn new(inner: W) -> WriterSink<W>
        ensures { result ≡ record { inner = inner; faults = 0 } }
    {
        WriterSink { inner, faults: 0 }
    }
}

impl<W: Write> Sink for WriterSink<W> {
    ghost state = { untold };

    // What the writer took, and its errors counted. After an error it may have taken some bytes.
    fn write(&mut self, bytes: &[u8]) -> Result<usize, Failed>
        ensures within { WritesAtMost result bytes.now }
        ensures some { IfOk result (λ count. 0 < length bytes.now → 0 < count) }
        ensures inner { IfOk result (λ count.
            known.Appends (W.contents self.old.inner) (W.contents self.new.inner)
            (take count bytes.now)) }
        ensures inner_failed { OnErr result
            (GrowsByPrefix (W.contents self.old.inner) (W.contents self.new.inner) bytes.now) }
        ensures failed { OnErr result (Fails (untold self.old) (untold self.new)) }
        ensures counted { OnErr result (self.new.faults ≡ next_count self.old.faults) }
        ensures not_counted { OnOk result (self.new.faults ≡ self.old.faults) }
    {
        match write_and_flush(&mut self.inner, bytes) {
            Ok(count) if count > 0 || bytes.is_empty() => Ok(count),
            _ => {
                self.faults = self.faults.saturating_add(1);
                Err(Failed)
            }
        }
    }
}

/// Writes some first part of these bytes, and flushes.
fn write_and_flush<W: Write>(writer: &mut W, bytes: &[u8]) -> io::Result<usize>
    ensures within { WritesAtMost result bytes.now }
    ensures ok { IfOk result (λ count.
        known.Appends (W.contents writer.old) (W.contents writer.new) (take count bytes.now)) }
    ensures err { OnErr result
        (GrowsByPrefix (W.contents writer.old) (W.contents writer.new) bytes.now) }
{
    let count = writer.write(bytes)?;
    writer.flush()?;
    Ok(count)
}
