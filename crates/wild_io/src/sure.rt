//! A source and a sink that never fail.
ghost use Rattle.std.specs.Prelude.{◌≤◌, vec_len};

use crate::prefix::copy_prefix;
use crate::traits::{IoFailure, Sink, Source};

/// Input from memory; no read fails.
#[derive(Drop)]
pub struct SureSource {
    bytes: Vec<u8>,
    at: usize,
    ghost in_range: { at ≤ vec_len bytes },
}

impl SureSource {
    ghost use Rattle.std.specs.Prelude.{◌≡◌};
    ghost use Rattle.wild_io.specs.Memory.{sure_unread};

    /// A source of these bytes.
    pub fn new(bytes: Vec<u8>) -> SureSource
        ensures { sure_unread result ≡ bytes.items }
    {
        SureSource { bytes, at: 0 }
    }
}

impl Source for SureSource {
    ghost use Rattle.std.specs.Prelude.{Some};
    ghost use Rattle.wild_io.specs.Memory.{sure_unread};

    ghost unread_bytes = { λ s. Some (sure_unread s) };

    ghost faults = { λ s. 0 };

    fn read(&mut self, buf: &mut [u8]) -> Result<usize, IoFailure> {
        let count = copy_prefix(&self.bytes[self.at..], buf, usize::MAX);
        self.at += count;
        Ok(count)
    }
}

/// An output that accepts and discards all bytes. Keeping them would take memory, so the specification does not know them.
#[derive(Clone, Copy, Drop)]
pub struct SureSink;

impl Sink for SureSink {
    ghost use Rattle.std.specs.Prelude.{None};

    ghost output_bytes = { λ s. None };

    ghost faults = { λ s. 0 };

    fn write(&mut self, piece: &[u8]) -> Result<usize, IoFailure> {
        Ok(piece.len())
    }
}
