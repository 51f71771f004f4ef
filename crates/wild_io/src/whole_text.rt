//! Reads a whole input, writes a whole text.
ghost use Rattle.std.specs.Prelude.{◌≡◌, ◌+◌, ◌<◌, ◌≤◌, ◌^◌, List, ℕ, length, IfOk, OnOk, OnErr, IsErrOf};
ghost use Rattle.std.specs.Io.KnownBytes.{Consumes, Appends, IsAtEnd};
ghost use Rattle.wild_io.specs.Causes.{CountRose, HasCause, AppendsPrefix};
ghost use Rattle.wild_io.specs.declared.whole_text.ReadFault.TheVariants.{Memory, IoFailure as ReadFailed};

use crate::traits::{IoFailure, Sink, Source};
use std::alloc::{AllocError, Global};

/// Why an input was not read to its end.
#[derive(Clone, Copy, PartialEq, Eq)]
pub enum ReadFault {
    /// Out of memory.
    Memory,
    /// A read failed.
    IoFailure,
    /// The input has more bytes than the limit.
    TooLong,
}

impl From<AllocError> for ReadFault {
    ghost from_gives = { λ _ e. e ≡ Memory };

    fn from(_e: AllocError) -> ReadFault {
        ReadFault::Memory
    }
}

impl From<IoFailure> for ReadFault {
    ghost from_gives = { λ _ e. e ≡ ReadFailed };

    fn from(_e: IoFailure) -> ReadFault {
        ReadFault::IoFailure
    }
}

/// The most bytes of one read.
const CHUNK: usize = 4096;

/// All bytes of the input, if they are at most `limit`. To see that there are more, one byte past the limit is read.
pub fn read_whole<S: Source>(
    alloc: Global,
    source: &mut S,
    limit: usize,
) -> Result<Vec<u8>, ReadFault>
    requires { limit < 2 ^ 63 }
    ensures read { IfOk result (λ v. Consumes (S.unread_bytes source.old) (S.unread_bytes source.new) v.items
        × IsAtEnd (S.unread_bytes source.new) × (length v.items ≤ limit)) }
    ensures failed { IsErrOf result ReadFault.IoFailure → CountRose (S.faults source.old) (S.faults source.new) }
    ensures too_long { IsErrOf result ReadFault.TooLong
        → (bytes : List ℕ) × Consumes (S.unread_bytes source.old) (S.unread_bytes source.new) bytes × (length bytes ≡ limit + 1) }
    ensures later { S.faults source.old ≤ S.faults source.new }
    ensures calm { (IsErrOf result ReadFault.IoFailure → ⊥) → S.faults source.new ≡ S.faults source.old }
{
    let mut bytes = Vec::new(alloc);
    let mut buf = [0u8; CHUNK];
    'turns: loop {
        let room = limit - bytes.len();
        let most = room.min(CHUNK - 1) + 1;
        let count = source.read(&mut buf[..most])?;
        if count == 0 {
            return Ok(bytes);
        }
        if count > room {
            return Err(ReadFault::TooLong);
        }
        bytes.extend_from_slice(&buf[..count])?;
    }
}

/// Writes the whole text. Stops at the first write that fails or accepts no bytes; a prefix of the text has been written then.
pub fn write_whole<K: Sink>(sink: &mut K, text: &[u8]) -> Result<(), IoFailure>
    ensures written { OnOk result (Appends (K.output_bytes sink.old) (K.output_bytes sink.new) text.now) }
    ensures front { OnErr result (AppendsPrefix (K.output_bytes sink.old) (K.output_bytes sink.new) text.now) }
    ensures cause { HasCause (K.faults sink.old) (K.faults sink.new) result }
{
    let mut at = 0;
    while at < text.len() {
        let count = sink.write(&text[at..])?;
        if count == 0 {
            return Err(IoFailure);
        }
        at += count;
    }
    Ok(())
}
