//! Reads and writes that fail, and such that move less than asked.

use std::alloc::Global;
use std::io::{self, ErrorKind, Read, Write};
use std::test::Fail;
use wild_io::{
    MemSink, MemSource, ReadFault, ReaderSource, Sink, Source, SureSink, SureSource, WriterSink,
    read_whole, write_whole,
};

/// Reads that fail of a source of `image`, how many bytes each read moves at most, the limit, and why the text is not read.
const SOURCES: &[(&[u64], usize, usize, Option<ReadFault>)] = &[
    (&[], 99, 5, None),
    (&[], 1, 5, None),
    (&[], 99, 4, Some(ReadFault::TooLong)),
    (&[], 2, 4, Some(ReadFault::TooLong)),
    (&[0], 99, 5, Some(ReadFault::IoFailure)),
    (&[1], 99, 5, Some(ReadFault::IoFailure)),
    (&[5], 1, 5, Some(ReadFault::IoFailure)),
    (&[6], 1, 5, None),
];

// A source of `image`.
fn source_of(alloc: Global, failing: &[u64], most: usize) -> Result<MemSource, Fail> {
    let failing = failing.to_vec(alloc)?;
    Ok(MemSource::new(b"image".to_vec(alloc)?, failing, most.max(1)))
}

// Whether `image` is read, or its read fails for that cause.
fn is_read<S: Source>(
    alloc: Global,
    source: &mut S,
    limit: usize,
    fault: &Option<ReadFault>,
) -> bool {
    match read_whole(alloc, source, limit.min(99)) {
        Ok(bytes) => fault.is_none() && bytes.as_slice() == b"image".as_slice(),
        Err(found) => *fault == Some(found),
    }
}

#[test]
fn sources_in_memory(rt: HostRuntime) -> Result<(), Fail> {
    let alloc = rt.alloc();
    for (failing, most, limit, fault) in SOURCES {
        let mut source = source_of(alloc, failing, *most)?;
        assert!(rt; is_read(alloc, &mut source, *limit, fault), "{failing:?}");
    }
    let mut source = SureSource::new(b"image".to_vec(alloc)?);
    assert!(rt; is_read(alloc, &mut source, 5, &None));
    Ok(())
}

/// Writes to a sink that fail, and such that take nothing, how many bytes each takes at most, whether `image` is written, and
/// what is taken.
const SINKS: &[(&[u64], &[u64], usize, bool, &[u8])] = &[
    (&[], &[], 99, true, b"image"),
    (&[], &[], 2, true, b"image"),
    (&[0], &[], 99, false, b""),
    (&[2], &[], 1, false, b"im"),
    (&[], &[1], 3, false, b"ima"),
];

// A sink that has taken nothing.
fn sink_of(alloc: Global, failing: &[u64], empty: &[u64], most: usize) -> Result<MemSink, Fail> {
    let failing = failing.to_vec(alloc)?;
    let empty = empty.to_vec(alloc)?;
    Ok(MemSink::new(Vec::new(alloc), failing, empty, most.max(1)))
}

#[test]
fn sinks_in_memory(rt: HostRuntime) -> Result<(), Fail> {
    for (failing, empty, most, all, taken) in SINKS {
        let mut sink = sink_of(rt.alloc(), failing, empty, *most)?;
        let written = write_whole(&mut sink, b"image").is_ok();
        assert!(rt; written == *all && sink.bytes() == *taken, "{failing:?}");
    }
    assert!(rt; write_whole(&mut SureSink, b"image").is_ok());
    Ok(())
}

// A reader and a writer that follow a list: how many bytes the next call moves at most, or how it fails. After the end of
// the list no call moves any.
#[derive(Drop)]
struct ListedCalls<'a> {
    calls: &'a [Result<usize, ErrorKind>],
    // The bytes that are still to be read, and those that were written.
    left: &'a [u8],
    taken: Vec<u8>,
}

impl ListedCalls<'_> {
    fn next(&mut self) -> io::Result<usize> {
        let Some((call, rest)) = self.calls.split_first() else {
            return Ok(0);
        };
        self.calls = rest;
        match call {
            Ok(most) => Ok(*most),
            Err(kind) => Err(io::Error::from(*kind)),
        }
    }
}

impl Read for ListedCalls<'_> {
    fn read(&mut self, buf: &mut [u8]) -> io::Result<usize> {
        let count = self.next()?.min(buf.len()).min(self.left.len());
        let (now, left) = self.left.split_at(count);
        buf[..count].copy_from_slice(now);
        self.left = left;
        Ok(count)
    }
}

impl Write for ListedCalls<'_> {
    fn write(&mut self, buf: &[u8]) -> io::Result<usize> {
        let count = self.next()?.min(buf.len());
        self.taken.extend_from_slice(&buf[..count])?;
        Ok(count)
    }

    fn flush(&mut self) -> io::Result<()> {
        Ok(())
    }
}

/// Reads of which one fails, and what the reads after it return if none of them fails.
const READS: &[(&[Result<usize, ErrorKind>], Option<&[u8]>)] = &[
    (&[Err(ErrorKind::ConnectionReset), Ok(9)], Some(b"image")),
    (
        &[Ok(2), Err(ErrorKind::Interrupted), Ok(2), Ok(2)],
        Some(b"age"),
    ),
    (
        &[Ok(2), Ok(2), Err(ErrorKind::WouldBlock), Ok(2)],
        Some(b"e"),
    ),
    (
        &[Ok(2), Ok(2), Ok(2), Err(ErrorKind::UnexpectedEof)],
        Some(b""),
    ),
    (
        &[Ok(4), Err(ErrorKind::Other), Err(ErrorKind::Other), Ok(9)],
        None,
    ),
];

// Whether a read fails, and the next one gives the rest, where there is one.
fn goes_on<S: Source>(alloc: Global, source: &mut S, rest: &Option<&[u8]>) -> bool {
    if !matches!(read_whole(alloc, source, 9), Err(ReadFault::IoFailure)) {
        return false;
    }
    match (read_whole(alloc, source, 9), rest) {
        (Ok(bytes), Some(rest)) => bytes.as_slice() == *rest,
        (found, rest) => found.is_err() && rest.is_none(),
    }
}

#[test]
fn reads_that_fail(rt: HostRuntime) {
    for (calls, rest) in READS {
        let mut source = ReaderSource::new(ListedCalls {
            calls,
            left: b"image",
            taken: Vec::new(rt.alloc()),
        });
        assert!(rt; goes_on(rt.alloc(), &mut source, rest), "{calls:?}");
    }
}

/// Writes of which one fails or takes nothing, whether the next text is written, and the bytes that are written of both.
const WRITES: &[(&[Result<usize, ErrorKind>], bool, &[u8])] = &[
    (&[Err(ErrorKind::ConnectionReset), Ok(9)], true, b"!"),
    (&[Ok(2), Err(ErrorKind::Interrupted), Ok(9)], true, b"im!"),
    (
        &[Ok(2), Ok(2), Err(ErrorKind::WouldBlock), Ok(9)],
        true,
        b"imag!",
    ),
    (&[Ok(0), Ok(9)], true, b"!"),
    (&[Ok(3), Ok(0), Ok(9)], true, b"ima!"),
    (
        &[
            Ok(4),
            Err(ErrorKind::WriteZero),
            Err(ErrorKind::Other),
            Ok(9),
        ],
        false,
        b"imag",
    ),
];

// Whether a write fails, and whether the next one does.
fn fails_then_writes<K: Sink>(sink: &mut K, goes_on: bool) -> bool {
    write_whole(sink, b"image").is_err() && write_whole(sink, b"!").is_ok() == goes_on
}

#[test]
fn writes_that_fail(rt: HostRuntime) {
    for (calls, goes_on, taken) in WRITES {
        let mut writer = ListedCalls {
            calls,
            left: b"",
            taken: Vec::new(rt.alloc()),
        };
        let is_so = fails_then_writes(&mut WriterSink::new(&mut writer), *goes_on);
        assert!(rt; is_so && writer.taken.as_slice() == *taken, "{calls:?}");
    }
}

#[test]
fn readers_and_writers_of_std(rt: HostRuntime) {
    let mut source = ReaderSource::new(b"image".as_slice());
    assert!(rt; is_read(rt.alloc(), &mut source, 5, &None));
    let mut out = Vec::new(rt.alloc());
    let mut sink = WriterSink::new(&mut out);
    assert!(rt; write_whole(&mut sink, b"image").is_ok());
    assert!(rt; out.as_slice() == b"image".as_slice());
}
