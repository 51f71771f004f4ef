//! The traits of input and output: sources and sinks of bytes.
ghost use Rattle.std.specs.Prelude.{List, ℕ, Option};
ghost use Rattle.std.specs.Io.{ReadsAtMost, WritesAtMost};
ghost use Rattle.std.specs.Io.KnownBytes.{ReadConsumes, WriteAppends};
ghost use Rattle.wild_io.specs.Causes.{HasCause, HasWriteCause};

/// A read or a write failed.
#[derive(Clone, Copy)]
pub struct IoFailure;

/// An input: bytes are read from it in order.
pub trait Source {
    /// The bytes not read yet; `None` if the specification does not know them.
    ghost unread_bytes: { Self → Option (List ℕ) };

    /// The number of reads that have failed; it never falls.
    ghost faults: { Self → ℕ };

    /// Reads some bytes into the front of the buffer. 0 bytes into a buffer that is not empty means the end of the input.
    fn read(&mut self, buf: &mut [u8]) -> Result<usize, IoFailure>
        ensures bound { ReadsAtMost result buf.new }
        ensures bytes { ReadConsumes (unread_bytes self.old) (unread_bytes self.new) result buf.new }
        ensures cause { HasCause (faults self.old) (faults self.new) result };
}

/// An output: bytes are appended to it.
pub trait Sink {
    /// The bytes written so far; `None` if the specification does not know them.
    ghost output_bytes: { Self → Option (List ℕ) };

    /// The number of writes that have failed or accepted no bytes; it never falls.
    ghost faults: { Self → ℕ };

    /// Writes a prefix of the piece and returns its length.
    fn write(&mut self, piece: &[u8]) -> Result<usize, IoFailure>
        ensures bound { WritesAtMost result piece.now }
        ensures bytes { WriteAppends (output_bytes self.old) (output_bytes self.new) result piece.now }
        ensures cause { HasWriteCause (faults self.old) (faults self.new) piece.now result };
}
