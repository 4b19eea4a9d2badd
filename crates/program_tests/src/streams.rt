//! Sources and sinks in memory, and what reads and writes through them.
use crate::runs::{sink_of, source_of};
use crate::shown::{every, hold, holds};
use server_program::{
    MemorySink, MemorySource, ReadError, Sink, Source, Streams, read_whole, write_all,
};
use service_core::Octets;
use std::alloc::{AllocError, Global};
use std::test::Fail;

// Whether a read hands over so many bytes, or fails where none is told, and the buffer then has these.
fn reads(source: &mut MemorySource, buf: &mut [u8; 4], count: Option<usize>, left: &[u8]) -> bool {
    source.read(buf).ok() == count && buf.as_slice() == left
}

fn reads_six(source: &mut MemorySource) -> Result<bool, AllocError> {
    let mut buf = [0; 4];
    every(&[
        Ok(reads(source, &mut buf, Some(4), b"abcd")),
        Ok(reads(source, &mut buf, None, b"abcd")),
        Ok(reads(source, &mut buf, Some(2), b"efcd")),
        Ok(reads(source, &mut buf, Some(0), b"efcd")),
    ])
}

// Whether six bytes are read from a source whose second read fails.
fn six_are_read(alloc: Global) -> Result<bool, AllocError> {
    match source_of(alloc, b"abcdef", 1) {
        Ok(mut source) => {
            let shown = reads_six(&mut source);
            drop(source);
            shown
        }
        Err(error) => Err(error),
    }
}

#[test]
fn a_source_in_memory_fails_where_it_is_told_to(rt: HostRuntime) -> Result<(), Fail> {
    holds(&rt, six_are_read(rt.alloc()))
}

// Whether these bytes were read whole, or, as told, nothing.
fn is_whole(
    read: &Result<Octets, ReadError>,
    bytes: &[u8],
    whole: bool,
) -> Result<bool, AllocError> {
    match read {
        Ok(read) => Ok(whole && read.as_bytes() == bytes),
        Err(ReadError::Failed) => Ok(!whole),
        Err(ReadError::Memory) => Err(AllocError),
    }
}

fn is_read_of(
    alloc: Global,
    source: &mut MemorySource,
    bytes: &[u8],
    whole: bool,
) -> Result<bool, AllocError> {
    let read = read_whole(alloc, source);
    let shown = is_whole(&read, bytes, whole);
    drop(read);
    shown
}

// Whether a source whose read of this number fails is read whole, or not at all.
fn is_read(alloc: Global, bytes: &[u8], fail: u64, whole: bool) -> Result<bool, AllocError> {
    match source_of(alloc, bytes, fail) {
        Ok(mut source) => {
            let shown = is_read_of(alloc, &mut source, bytes, whole);
            drop(source);
            shown
        }
        Err(error) => Err(error),
    }
}

fn reads_whole_or_not(alloc: Global, bytes: &[u8]) -> Result<bool, AllocError> {
    every(&[
        is_read(alloc, bytes, u64::MAX, true),
        is_read(alloc, bytes, 2, false),
    ])
}

// Whether ten thousand bytes are read whole, or not at all.
fn many_are_read(alloc: Global) -> Result<bool, AllocError> {
    match vec![in alloc; 7u8; 10_000] {
        Ok(long) => {
            let shown = reads_whole_or_not(alloc, &long);
            drop(long);
            shown
        }
        Err(error) => Err(error),
    }
}

#[test]
fn a_source_is_read_whole_or_not_at_all(rt: HostRuntime) -> Result<(), Fail> {
    holds(&rt, many_are_read(rt.alloc()))
}

// Whether a write takes so many bytes, or fails where none is told, and the sink then has got these.
fn writes(sink: &mut MemorySink, piece: &[u8], count: Option<usize>, got: &[u8]) -> bool {
    !piece.is_empty() && sink.write(piece).ok() == count && sink.got() == got
}

fn takes_five(sink: &mut MemorySink) -> Result<bool, AllocError> {
    every(&[
        Ok(writes(sink, b"abc", Some(3), b"abc")),
        Ok(writes(sink, b"def", None, b"abc")),
        Ok(writes(sink, b"def", Some(2), b"abcde")),
        Ok(writes(sink, b"f", None, b"abcde")),
    ])
}

// Whether a sink whose second write fails takes five bytes.
fn five_are_taken(alloc: Global) -> Result<bool, AllocError> {
    match sink_of(alloc, 5, 1) {
        Ok(mut sink) => {
            let shown = takes_five(&mut sink);
            drop(sink);
            shown
        }
        Err(error) => Err(error),
    }
}

#[test]
fn a_sink_in_memory_fails_where_it_is_told_to_and_without_room(
    rt: HostRuntime,
) -> Result<(), Fail> {
    holds(&rt, five_are_taken(rt.alloc()))
}

// Whether a text is written whole, as told, and the sink then has got these bytes.
fn writes_all(sink: &mut MemorySink, text: &[u8], whole: bool, got: &[u8]) -> bool {
    write_all(sink, text).is_ok() == whole && sink.got() == got
}

fn cuts_short(sink: &mut MemorySink) -> Result<bool, AllocError> {
    every(&[
        Ok(writes_all(sink, b"hello", true, b"hello")),
        Ok(writes_all(sink, b" world", false, b"hello wo")),
    ])
}

// Whether eight bytes of a text are taken.
fn eight_are_taken(alloc: Global) -> Result<bool, AllocError> {
    match MemorySink::new(alloc, 8, Vec::new(alloc)) {
        Ok(mut sink) => {
            let shown = cuts_short(&mut sink);
            drop(sink);
            shown
        }
        Err(error) => Err(error),
    }
}

#[test]
fn a_text_is_written_whole_or_cut_short(rt: HostRuntime) -> Result<(), Fail> {
    let writes_nothing = write_all(&mut Streams::new(&rt), b"").is_ok();
    hold(&rt, &[eight_are_taken(rt.alloc()), Ok(writes_nothing)])
}
