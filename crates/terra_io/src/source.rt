//! What bytes are read from.

ghost use Rattle.std.specs.Prelude.{◌≡◌, ◌<◌, length, take, IfOk, OnOk, OnErr};
ghost use Rattle.std.specs.Io.{ReadsAtMost};
ghost use Rattle.std.specs.Io.KnownBytes.{IsAtEnd};
ghost use Rattle.terra_io.specs.Stream.{Stream, Yields, IsFaultless, Fails};

use crate::Failed;

/// What bytes are read from.
pub trait Source {
    // The bytes that are left, where the source tells them, and how often a read has failed.
    ghost state: { Self → Stream };

    /// Reads the next bytes into the front of `buf`, and returns how many.
    ///
    /// `Ok(0)` for a buffer that isn't empty is the end of the input. Nothing is said of `buf` past that number of
    /// bytes, nor after an error. An error is counted as a fault, and nothing else is.
    fn read(&mut self, buf: &mut [u8]) -> Result<usize, Failed>
        ensures within { ReadsAtMost result buf.new }
        ensures taken { IfOk result (λ count.
            Yields (state self.old) (state self.new) (take count buf.new)) }
        ensures faultless { OnOk result (IsFaultless (state self.old) (state self.new)) }
        ensures end { IfOk result (λ count.
            count ≡ 0 → 0 < length buf.new → IsAtEnd (state self.new).bytes) }

        // A read that fails takes nothing.
        ensures failed { OnErr result (Fails (state self.old) (state self.new)) };
}
