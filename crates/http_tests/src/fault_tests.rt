//! A connection whose bytes end, or whose link fails, at any place of two requests.
use crate::answering::is_answered;
use crate::serving::{MANY, OK, Wanted, is_served};
use crate::shown::holds;
use crate::test_link::Way;
use futures::test::MockTask;
use service_core::How;
use std::alloc::{AllocError, Global};
use std::test::Fail;

// The first of two requests.
const FIRST: &[u8] = b"GET /a HTTP/1.1\r\nHost: x\r\n\r\n";

// Two requests, of which the second has a body.
const BOTH: &[u8] =
    b"GET /a HTTP/1.1\r\nHost: x\r\n\r\nPOST /b HTTP/1.1\r\nContent-Length: 3\r\n\r\nxyz";

// Their answers.
const ANSWERS: &[u8] = b"HTTP/1.1 200 OK\r\ncontent-length: 3\r\n\r\n/a\n\
HTTP/1.1 200 OK\r\ncontent-length: 6\r\n\r\n/b\nxyz";

// The answers to the requests that are whole within so many bytes.
fn answers_within(len: usize) -> &'static [u8] {
    if len < FIRST.len() {
        b""
    } else if len < BOTH.len() {
        OK
    } else {
        ANSWERS
    }
}

// Whether each front of the bytes has the answers to the requests that are whole in it.
fn fronts_are_answered(task: &MockTask, alloc: Global) -> Result<bool, AllocError> {
    for end in 0..BOTH.len() + 1 {
        if !is_answered(task, alloc, &BOTH[..end], answers_within(end))? {
            return Ok(false);
        }
    }
    Ok(true)
}

#[test]
fn requests_cut_short_anywhere_have_the_answers_to_the_whole_ones(
    rt: HostRuntime,
) -> Result<(), Fail> {
    let task = MockTask::new(&rt)?;
    holds(&rt, fronts_are_answered(&task, rt.alloc()))
}

// Whether the connection of both over such a link ends so and wrote this.
fn end_so(
    task: &MockTask,
    alloc: Global,
    way: Way,
    how: How,
    text: &[u8],
) -> Result<bool, AllocError> {
    let wanted = Wanted::Writes(Some(how), text);
    is_served(task, alloc, (BOTH, way, MANY), &wanted)
}

// How many bytes are taken in such pieces where reads fail once so many were.
fn taken_by(piece: usize, most_read: usize) -> usize {
    most_read.div_ceil(piece.max(1)).saturating_mul(piece)
}

// Whether what was taken is answered, wherever a read fails.
fn reads_fail_anywhere(
    task: &MockTask,
    alloc: Global,
    piece: usize,
    pauses: bool,
) -> Result<bool, AllocError> {
    for most in 0..BOTH.len() + 1 {
        let way = Way::failing_reads(piece, pauses, most);
        let text = answers_within(taken_by(piece, most));
        if !end_so(task, alloc, way, How::ReadFault, text)? {
            return Ok(false);
        }
    }
    Ok(true)
}

// The same in smaller and larger pieces.
fn reads_fail(task: &MockTask, alloc: Global) -> Result<bool, AllocError> {
    for (piece, pauses) in [(1, false), (1, true), (7, true), (4096, false)] {
        if !reads_fail_anywhere(task, alloc, piece, pauses)? {
            return Ok(false);
        }
    }
    Ok(true)
}

#[test]
fn a_read_fault_anywhere_ends_it_with_what_was_taken_answered(rt: HostRuntime) -> Result<(), Fail> {
    let task = MockTask::new(&rt)?;
    holds(&rt, reads_fail(&task, rt.alloc()))
}

// Whether the answers are written up to where a write fails, wherever that is.
fn writes_fail_anywhere(task: &MockTask, alloc: Global, pauses: bool) -> Result<bool, AllocError> {
    for most in 0..ANSWERS.len() {
        let way = Way::failing_writes(1, pauses, most);
        if !end_so(task, alloc, way, How::WriteFault, &ANSWERS[..most])? {
            return Ok(false);
        }
    }
    Ok(true)
}

// The same, and where a write of four bytes fails.
fn writes_fail(task: &MockTask, alloc: Global) -> Result<bool, AllocError> {
    for pauses in [false, true] {
        if !writes_fail_anywhere(task, alloc, pauses)? {
            return Ok(false);
        }
    }
    let way = Way::failing_writes(4, true, 6);
    end_so(task, alloc, way, How::WriteFault, b"HTTP/1.1")
}

#[test]
fn a_write_fault_anywhere_ends_it_with_a_front_of_the_answers(rt: HostRuntime) -> Result<(), Fail> {
    let task = MockTask::new(&rt)?;
    holds(&rt, writes_fail(&task, rt.alloc()))
}

// Whether all is written, byte by byte, where a further write would fail.
fn all_is_written(task: &MockTask, alloc: Global) -> Result<bool, AllocError> {
    for pauses in [false, true] {
        let way = Way::failing_writes(1, pauses, ANSWERS.len());
        if !end_so(task, alloc, way, How::Served, ANSWERS)? {
            return Ok(false);
        }
    }
    Ok(true)
}

#[test]
fn a_link_that_takes_one_byte_a_write_gets_whole_answers(rt: HostRuntime) -> Result<(), Fail> {
    let task = MockTask::new(&rt)?;
    holds(&rt, all_is_written(&task, rt.alloc()))
}

// Requests behind which the connection closes, with a byte behind them, and their answers.
const CLOSING: [(&[u8], &[u8]); 2] = [
    (
        b"GET /a HTTP/1.1\r\nConnection: close\r\n\r\nG",
        b"HTTP/1.1 200 OK\r\ncontent-length: 3\r\nconnection: close\r\n\r\n/a\n",
    ),
    (
        b"GET\r\n\r\nG",
        b"HTTP/1.1 400 Bad Request\r\ncontent-length: 0\r\nconnection: close\r\n\r\n",
    ),
];

// Whether the connection of the bytes ends as served, where a read of the last byte would fail.
fn is_closed(
    task: &MockTask,
    alloc: Global,
    bytes: &[u8],
    text: &[u8],
) -> Result<bool, AllocError> {
    let way = Way::failing_reads(1, false, bytes.len().saturating_sub(1));
    let wanted = Wanted::Writes(Some(How::Served), text);
    is_served(task, alloc, (bytes, way, MANY), &wanted)
}

fn are_closed(task: &MockTask, alloc: Global) -> Result<bool, AllocError> {
    for (bytes, text) in CLOSING {
        if !is_closed(task, alloc, bytes, text)? {
            return Ok(false);
        }
    }
    Ok(true)
}

#[test]
fn no_read_behind_a_closing_answer_is_tried(rt: HostRuntime) -> Result<(), Fail> {
    let task = MockTask::new(&rt)?;
    holds(&rt, are_closed(&task, rt.alloc()))
}
