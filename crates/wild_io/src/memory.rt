//! A source and a sink in memory whose calls fail by lists, for tests.
ghost use Rattle.std.specs.Prelude.{◌≡◌, ◌≤◌, ◌<◌, vec_len, Some, []};

use crate::prefix::copy_prefix;
use crate::traits::{IoFailure, Sink, Source};

/// Input from memory. Calls are numbered from 0. A read whose number is in `failing` fails; any other gives at most `most` bytes.
#[derive(Drop)]
pub struct MemSource {
    bytes: Vec<u8>,
    at: usize,
    failing: Vec<u64>,
    most: usize,
    calls: u64,
    faults: u64,
    ghost in_range: { at ≤ vec_len bytes },
    ghost gives: { 0 < most },
}

impl MemSource {
    ghost use Rattle.wild_io.specs.Memory.{mem_unread};

    /// A source of these bytes.
    pub fn new(bytes: Vec<u8>, failing: Vec<u64>, most: usize) -> MemSource
        requires { 0 < most }
        ensures left { mem_unread result ≡ bytes.items }
        ensures failing { result.failing ≡ failing }
        ensures most { result.most ≡ most }
        ensures counts { (result.calls ≡ 0) × (result.faults ≡ 0) }
    {
        MemSource {
            bytes,
            at: 0,
            failing,
            most,
            calls: 0,
            faults: 0,
        }
    }
}

impl Source for MemSource {
    ghost use Rattle.std.specs.Prelude.{length, min, is_err, IfOk};
    ghost use Rattle.std.specs.Io.{ReadsAtMost};
    ghost use Rattle.std.specs.Io.KnownBytes.{ReadConsumes};
    ghost use Rattle.wild_io.specs.Causes.{HasCause};
    ghost use Rattle.wild_io.specs.Memory.{mem_unread, is_named, SourceMoves};

    ghost unread_bytes = { λ s. Some (mem_unread s) };

    ghost faults = { λ s. s.faults };

    /// Fails exactly if the number of the call is in the list `failing`.
    fn read(&mut self, buf: &mut [u8]) -> Result<usize, IoFailure>
        ensures bound { ReadsAtMost result buf.new }
        ensures bytes { ReadConsumes (Some (mem_unread self.old)) (Some (mem_unread self.new)) result buf.new }
        ensures cause { HasCause self.old.faults self.new.faults result }
        ensures fails { is_err result ≡ is_named self.old.failing.items self.old.calls }
        ensures gives { IfOk result (λ n. n ≡ min (min (length buf.old) (length (mem_unread self.old))) self.old.most) }
        ensures moves { SourceMoves self.old self.new }
    {
        let call = self.calls;
        self.calls = call.saturating_add(1);
        if self.failing.contains(&call) {
            self.faults = self.faults.saturating_add(1);
            return Err(IoFailure);
        }
        let count = copy_prefix(&self.bytes[self.at..], buf, self.most);
        self.at += count;
        Ok(count)
    }
}

/// Output to memory. Calls are numbered from 0. A write whose number is in `failing` fails, and one whose number is in `empty` accepts
/// no bytes. Any other accepts at most `most` bytes, and fails if memory runs out.
#[derive(Drop)]
pub struct MemSink {
    bytes: Vec<u8>,
    failing: Vec<u64>,
    empty: Vec<u64>,
    most: usize,
    calls: u64,
    faults: u64,
    ghost takes: { 0 < most },
}

impl MemSink {
    /// A sink that has these bytes already.
    pub fn new(bytes: Vec<u8>, failing: Vec<u64>, empty: Vec<u64>, most: usize) -> MemSink
        requires { 0 < most }
        ensures taken { result.bytes ≡ bytes }
        ensures failing { result.failing ≡ failing }
        ensures empty { result.empty ≡ empty }
        ensures most { result.most ≡ most }
        ensures counts { (result.calls ≡ 0) × (result.faults ≡ 0) }
    {
        MemSink {
            bytes,
            failing,
            empty,
            most,
            calls: 0,
            faults: 0,
        }
    }

    /// The bytes written so far.
    pub fn bytes(&self) -> &[u8]
        ensures { result.now ≡ self.now.bytes.items }
    {
        &self.bytes
    }
}

impl Sink for MemSink {
    ghost use Rattle.std.specs.Prelude.{true, false, length, min, Ok, IsErr, IfOk};
    ghost use Rattle.std.specs.Io.{WritesAtMost};
    ghost use Rattle.std.specs.Io.KnownBytes.{WriteAppends};
    ghost use Rattle.wild_io.specs.Causes.{HasWriteCause};
    ghost use Rattle.wild_io.specs.Memory.{is_named, SinkMoves};

    ghost output_bytes = { λ s. Some s.bytes.items };

    ghost faults = { λ s. s.faults };

    /// Fails if the number of the call is in `failing`, else accepts no bytes if it is in `empty`.
    fn write(&mut self, piece: &[u8]) -> Result<usize, IoFailure>
        ensures bound { WritesAtMost result piece.now }
        ensures bytes { WriteAppends (Some self.old.bytes.items) (Some self.new.bytes.items) result piece.now }
        ensures cause { HasWriteCause self.old.faults self.new.faults piece.now result }
        ensures fails { is_named self.old.failing.items self.old.calls ≡ true → IsErr result }
        ensures empty { is_named self.old.failing.items self.old.calls ≡ false
            → is_named self.old.empty.items self.old.calls ≡ true → result ≡ Ok 0 }
        ensures takes { is_named self.old.failing.items self.old.calls ≡ false
            → is_named self.old.empty.items self.old.calls ≡ false
            → IfOk result (λ n. n ≡ min (length piece.now) self.old.most) }
        ensures moves { SinkMoves self.old self.new }
    {
        let call = self.calls;
        self.calls = call.saturating_add(1);
        if self.failing.contains(&call) {
            self.faults = self.faults.saturating_add(1);
            return Err(IoFailure);
        }
        if self.empty.contains(&call) {
            self.faults = self.faults.saturating_add(1);
            return Ok(0);
        }
        let count = piece.len().min(self.most);
        if self.bytes.extend_from_slice(&piece[..count]).is_err() {
            self.faults = self.faults.saturating_add(1);
            return Err(IoFailure);
        }
        Ok(count)
    }
}
