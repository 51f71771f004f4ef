//! Adapters: readers and writers of std as sources and sinks.
ghost use Rattle.std.specs.Prelude.{◌≡◌};

use crate::traits::{IoFailure, Sink, Source};
use std::io::{Read, Write};

/// A reader of std, with a count of its errors.
#[derive(Drop)]
pub struct ReaderSource<R: Read> {
    inner: R,
    faults: u64,
}

impl<R: Read> ReaderSource<R> {
    /// A source that reads from `inner`.
    pub fn new(inner: R) -> ReaderSource<R>
        ensures { result ≡ record { inner = inner; faults = 0 } }
    {
        ReaderSource { inner, faults: 0 }
    }
}

impl<R: Read> Source for ReaderSource<R> {
    ghost unread_bytes = { λ s. R.remaining s.inner };

    ghost faults = { λ s. s.faults };

    fn read(&mut self, buf: &mut [u8]) -> Result<usize, IoFailure> {
        match self.inner.read(buf) {
            Ok(count) => Ok(count),
            Err(_) => {
                self.faults = self.faults.saturating_add(1);
                Err(IoFailure)
            }
        }
    }
}

/// A writer of std, with a count of its errors and of the writes that accepted no bytes.
#[derive(Drop)]
pub struct WriterSink<W: Write> {
    inner: W,
    faults: u64,
}

impl<W: Write> WriterSink<W> {
    /// A sink that writes to `inner`.
    pub fn new(inner: W) -> WriterSink<W>
        ensures { result ≡ record { inner = inner; faults = 0 } }
    {
        WriterSink { inner, faults: 0 }
    }
}

impl<W: Write> Sink for WriterSink<W> {
    ghost output_bytes = { λ s. W.contents s.inner };

    ghost faults = { λ s. s.faults };

    fn write(&mut self, piece: &[u8]) -> Result<usize, IoFailure> {
        match self.inner.write(piece) {
            Ok(0) => {
                self.faults = self.faults.saturating_add(1);
                Ok(0)
            }
            Ok(count) => Ok(count),
            Err(_) => {
                self.faults = self.faults.saturating_add(1);
                Err(IoFailure)
            }
        }
    }
}
