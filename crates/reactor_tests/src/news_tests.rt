//! What a link tells of its news.
use crate::wire::{accepted, listening, reactor, read, read_once, write_once, writes};
use futures::task::Poll;
use futures::test::MockTask;
use mio::net::TcpListener;
use server_reactor::{Arrivals, Reactor};
use server_run::Host;
use server_sockets::{SocketLink, SocketListener};
use service_core::Link;
use std::alloc::Global;
use std::io;
use std::io::{Read, Write};
use std::net::{SocketAddr, TcpStream};
use std::sync::Arc;
use std::test::Fail;

// So many links have slots of their own.
const SLOTS: usize = 65_536;

// More pieces than a socket takes.
const PIECES: usize = 100_000;

// The slot of a link of which nothing is to be read.
fn slot(task: &MockTask, link: &mut SocketLink) -> Option<u32> {
    let mut buf = [0; 8];
    match read_once(task, link, &mut buf) {
        Poll::Pending => link.waits_for(),
        Poll::Ready(_) => None,
    }
}

// Whether the bytes and the end that come together are read, and the link doesn't wait between them.
fn reads_both(reactor: &Reactor, task: &MockTask, link: &mut SocketLink) -> io::Result<bool> {
    let mut buf = [0; 8];
    let bytes = read(reactor, task, link, &mut buf)? == 3;
    let goes_on = link.waits_for().is_none();
    let ended = matches!(read_once(task, link, &mut buf), Poll::Ready(Ok(0)));
    Ok(bytes && goes_on && ended)
}

fn ends_in_one_report<Ho: Host>(rt: &Ho, alloc: Global, task: &MockTask) -> io::Result<bool> {
    let reactor = reactor(rt, alloc)?;
    let (mut listener, addr) = listening(rt, &reactor)?;
    let mut client = TcpStream::connect(rt, addr)?;
    let mut link = accepted(&reactor, &mut listener)?;
    let waits = slot(task, &mut link).is_some();
    client.write_all(b"bye")?;
    drop(client);
    Ok(waits && reads_both(&reactor, task, &mut link)?)
}

#[test]
fn bytes_and_an_end_of_one_report_are_read(rt: HostRuntime) -> Result<(), Fail> {
    assert!(rt; ends_in_one_report(&rt, rt.alloc(), &MockTask::new(&rt)?)?);
    Ok(())
}

// Whether three bytes are read within so many polls, but not by the first, where nobody tells of them.
fn reads_untold(task: &MockTask, link: &mut SocketLink, polls: u32) -> bool {
    let mut buf = [0; 8];
    let spared = read_once(task, link, &mut buf).is_pending();
    for _ in 0..polls {
        if let Poll::Ready(answer) = read_once(task, link, &mut buf) {
            return spared && answer == Ok(3);
        }
    }
    false
}

fn is_read_untold<Ho: Host>(rt: &Ho, alloc: Global, task: &MockTask) -> io::Result<bool> {
    let reactor = reactor(rt, alloc)?;
    let (mut listener, addr) = listening(rt, &reactor)?;
    let mut client = TcpStream::connect(rt, addr)?;
    let mut link = accepted(&reactor, &mut listener)?;
    let waits = slot(task, &mut link).is_some();
    client.write_all(b"one")?;
    Ok(waits && reads_untold(task, &mut link, 8))
}

#[test]
fn what_nobody_tells_is_read_by_a_later_poll(rt: HostRuntime) -> Result<(), Fail> {
    assert!(rt; is_read_untold(&rt, rt.alloc(), &MockTask::new(&rt)?)?);
    Ok(())
}

// A connection, and its client.
fn connected<Ho: Host>(
    rt: &Ho,
    reactor: &Reactor,
    listener: &mut SocketListener,
    addr: SocketAddr,
) -> io::Result<(SocketLink, Ho::Stream)> {
    let client = TcpStream::connect(rt, addr)?;
    Ok((accepted(reactor, listener)?, client))
}

// Gives out so many slots, each of which is given back at once.
fn use_slots<Ho: Host>(
    rt: &Ho,
    reactor: &Arc<Reactor>,
    addr: SocketAddr,
    count: usize,
) -> io::Result<()> {
    let mut any = addr;
    any.set_port(0);
    let mut listener = TcpListener::bind(rt, any)?;
    let arrivals = Arrivals::new(Arc::try_clone(reactor)?, &mut listener)?;
    for _ in 0..count {
        drop(arrivals.watch()?);
    }
    Ok(())
}

// Whether a link has its slot alone, though as many were given out as there are.
fn keeps_its_slot<Ho: Host>(rt: &Ho, alloc: Global, task: &MockTask) -> io::Result<bool> {
    let reactor = reactor(rt, alloc)?;
    let (mut listener, addr) = listening(rt, &reactor)?;
    let (mut first, _client) = connected(rt, &reactor, &mut listener, addr)?;
    let mine = slot(task, &mut first);
    use_slots(rt, &reactor, addr, SLOTS - 1)?;
    let (mut second, _other) = connected(rt, &reactor, &mut listener, addr)?;
    let others = slot(task, &mut second);
    Ok(mine.is_some() && others.is_some() && mine != others)
}

#[test]
fn a_slot_in_use_is_given_to_no_other(rt: HostRuntime) -> Result<(), Fail> {
    assert!(rt; keeps_its_slot(&rt, rt.alloc(), &MockTask::new(&rt)?)?);
    Ok(())
}

// How much was written when there was no room for more.
fn fill(task: &MockTask, link: &mut SocketLink) -> io::Result<usize> {
    let mut total = 0usize;
    for _ in 0..PIECES {
        match write_once(task, link)? {
            Some(count) => total = total.saturating_add(count),
            None => return Ok(total),
        }
    }
    Ok(0)
}

// Reads so much.
fn take<C: Read>(client: &mut C, total: usize) -> io::Result<()> {
    let mut left = total;
    let mut buf = [0; 4096];
    for _ in 0..total {
        if left == 0 {
            break;
        }
        let count = client.read(&mut buf)?;
        if count == 0 {
            return Err(io::ErrorKind::UnexpectedEof.into());
        }
        left = left.saturating_sub(count);
    }
    Ok(())
}

// Whether a link that found no room waits for it alone, and goes on once the client has read.
fn waits_for_room<Ho: Host>(rt: &Ho, alloc: Global, task: &MockTask) -> io::Result<bool> {
    let reactor = reactor(rt, alloc)?;
    let (mut listener, addr) = listening(rt, &reactor)?;
    let (mut link, mut client) = connected(rt, &reactor, &mut listener, addr)?;
    let before = link.waits_for_room().is_none();
    let total = fill(task, &mut link)?;
    let waits = link.waits_for_room().is_some() && link.waits_for().is_none();
    take(&mut client, total)?;
    Ok(before && total > 0 && waits && writes(&reactor, task, &mut link)?)
}

#[test]
fn a_write_without_room_waits_for_news_of_room(rt: HostRuntime) -> Result<(), Fail> {
    assert!(rt; waits_for_room(&rt, rt.alloc(), &MockTask::new(&rt)?)?);
    Ok(())
}
