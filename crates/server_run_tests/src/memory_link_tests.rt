//! A link in memory, read and written step by step.
use futures::task::Poll;
use futures::test::MockTask;
use server_run::{MemoryLink, ReadStep, WriteStep};
use service_core::{Link, LinkFault, Octets, Peer};
use std::alloc::{AllocError, Global};
use std::test::Fail;

// One read into three bytes.
fn read_three<L: Link>(task: &MockTask, link: &mut L) -> (Poll<Result<usize, LinkFault>>, [u8; 3]) {
    task.enter(|cx| {
        let mut buf = [0u8; 3];
        let polled = link.poll_read(cx, &mut buf);
        (polled, buf)
    })
}

// Whether one read into three bytes answers so, and leaves these bytes.
fn reads<L: Link>(
    task: &MockTask,
    link: &mut L,
    answer: Poll<Result<usize, LinkFault>>,
    bytes: &[u8],
) -> bool {
    let (polled, buf) = read_three(task, link);
    polled == answer && buf.as_slice() == bytes
}

// One write of five bytes.
fn write_once<L: Link>(task: &MockTask, link: &mut L) -> Poll<Result<usize, LinkFault>> {
    task.enter(|cx| link.poll_write(cx, b"hello"))
}

// Whether a write of five bytes answers so, one more where memory ran out: the step is kept then.
fn writes<L: Link>(
    task: &MockTask,
    link: &mut L,
    answer: Poll<Result<usize, LinkFault>>,
) -> Result<bool, AllocError> {
    let mut polled = write_once(task, link);
    if polled == Poll::Ready(Err(LinkFault::Memory)) {
        polled = write_once(task, link);
    }
    if polled == Poll::Ready(Err(LinkFault::Memory)) {
        return Err(AllocError);
    }
    Ok(polled == answer)
}

// A link that gives its bytes in pieces.
fn in_pieces(alloc: Global) -> Result<MemoryLink, AllocError> {
    let reads = vec![in alloc;
        ReadStep::Give(Octets::of(alloc, b"hello")?),
        ReadStep::Give(Octets::new(alloc)),
        ReadStep::NotYet,
        ReadStep::Give(Octets::of(alloc, b"you")?),
        ReadStep::Fail,
        ReadStep::Give(Octets::of(alloc, b"!")?),
    ]?;
    Ok(MemoryLink::new(alloc, 7, Peer::Local, reads, Vec::new(alloc)))
}

// Whether the link gives `hello` in two pieces, and then waits.
fn gives_hello<L: Link>(task: &MockTask, link: &mut L) -> bool {
    reads(task, link, Poll::Ready(Ok(3)), b"hel")
        && reads(task, link, Poll::Ready(Ok(2)), b"lo\0")
        && reads(task, link, Poll::Pending, b"\0\0\0")
        && task.is_woken()
}

// Whether the link gives `you`, and then fails.
fn gives_you_and_fails<L: Link>(task: &MockTask, link: &mut L) -> bool {
    let failed = Poll::Ready(Err(LinkFault::Failed));
    reads(task, link, Poll::Ready(Ok(3)), b"you") && reads(task, link, failed, b"\0\0\0")
}

// Whether the link gives one byte more, and then its end.
fn gives_a_byte_and_ends<L: Link>(task: &MockTask, link: &mut L) -> bool {
    reads(task, link, Poll::Ready(Ok(1)), b"!\0\0")
        && reads(task, link, Poll::Ready(Ok(0)), b"\0\0\0")
        && reads(task, link, Poll::Ready(Ok(0)), b"\0\0\0")
}

// Whether the link is named so, of a local peer, and nothing is written.
fn is_only_read(link: &MemoryLink, name: u64) -> bool {
    link.name() == name && link.peer() == Peer::Local && link.written().is_empty()
}

#[test]
fn a_link_gives_its_bytes_in_pieces(rt: HostRuntime) -> Result<(), Fail> {
    let task = MockTask::new(&rt)?;
    let mut link = in_pieces(rt.alloc())?;
    assert!(rt; gives_hello(&task, &mut link));
    assert!(rt; gives_you_and_fails(&task, &mut link));
    assert!(rt; gives_a_byte_and_ends(&task, &mut link));
    assert!(rt; is_only_read(&link, 7));
    Ok(())
}

// A link that never answers a read.
fn silent(alloc: Global) -> Result<MemoryLink, AllocError> {
    let reads = vec![in alloc;
        ReadStep::Never,
        ReadStep::Give(Octets::of(alloc, b"late")?),
    ]?;
    Ok(MemoryLink::new(alloc, 8, Peer::Unknown, reads, Vec::new(alloc)))
}

#[test]
fn a_link_that_never_answers_stays_pending(rt: HostRuntime) -> Result<(), Fail> {
    let task = MockTask::new(&rt)?;
    let mut link = silent(rt.alloc())?;
    assert!(rt; reads(&task, &mut link, Poll::Pending, b"\0\0\0"));
    assert!(rt; reads(&task, &mut link, Poll::Pending, b"\0\0\0"));
    assert!(rt; task.is_woken());
    Ok(())
}

// A link that takes two bytes, waits, and fails.
fn takes_two(alloc: Global) -> Result<MemoryLink, AllocError> {
    let writes = vec![in alloc; WriteStep::Take(2), WriteStep::NotYet, WriteStep::Fail]?;
    Ok(MemoryLink::new(alloc, 9, Peer::Local, Vec::new(alloc), writes))
}

// Whether two bytes of a write are taken and kept, and the next write waits.
fn keeps_two(task: &MockTask, link: &mut MemoryLink) -> Result<bool, AllocError> {
    Ok(
        writes(task, link, Poll::Ready(Ok(2)))?
            && link.written() == b"he".as_slice()
            && writes(task, link, Poll::Pending)?
            && task.is_woken(),
    )
}

// Whether a write fails and changes nothing, and the next one is taken whole.
fn fails_and_keeps_all(task: &MockTask, link: &mut MemoryLink) -> Result<bool, AllocError> {
    Ok(
        writes(task, link, Poll::Ready(Err(LinkFault::Failed)))?
            && link.written() == b"he".as_slice()
            && writes(task, link, Poll::Ready(Ok(5)))?
            && link.written() == b"hehello".as_slice(),
    )
}

#[test]
fn a_link_keeps_what_is_written(rt: HostRuntime) -> Result<(), Fail> {
    let task = MockTask::new(&rt)?;
    let mut link = takes_two(rt.alloc())?;
    assert!(rt; keeps_two(&task, &mut link)?);
    assert!(rt; fails_and_keeps_all(&task, &mut link)?);
    Ok(())
}
