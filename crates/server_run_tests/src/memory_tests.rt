//! A listener in memory, what keeps entries, and the outcomes of connections.
use server_run::{
    Accepted, Done, Entry, KeepAll, Listener, ListenerStep, MemoryLink, MemoryListener, Outcome,
};
use service_core::{How, Peer};
use std::alloc::{AllocError, Global};
use std::test::Fail;

// A link by its name, which gives nothing.
fn link_named(alloc: Global, name: u64) -> MemoryLink {
    MemoryLink::new(alloc, name, Peer::Unknown, Vec::new(alloc), Vec::new(alloc))
}

// An entry, but for its link, of which it has the name.
#[derive(Clone, Copy)]
struct Told {
    serial: u64,
    token: usize,
    place: u64,
    name: u64,
    outcome: Outcome,
}

fn is_told(entry: &Entry<MemoryLink>, told: Told) -> bool {
    entry.serial == told.serial
        && entry.token == told.token
        && entry.place == told.place
        && entry.link.name() == told.name
        && entry.outcome == told.outcome
}

// Whether the entries are these two.
fn are_two(entries: &[Entry<MemoryLink>], first: Told, second: Told) -> bool {
    match entries {
        [one, other] => is_told(one, first) && is_told(other, second),
        _ => false,
    }
}

// Whether this is told by the word, with a link of this name where there is one.
fn is_answer(accepted: &Accepted<MemoryLink>, name: Option<u64>, word: &str) -> bool {
    match accepted {
        Accepted::Got(link) => name == Some(link.name()) && word == "got",
        Accepted::NotYet => name.is_none() && word == "not yet",
        Accepted::Skipped => name.is_none() && word == "skipped",
        Accepted::Failed => name.is_none() && word == "failed",
        Accepted::Ended => name.is_none() && word == "ended",
    }
}

// Whether the listener answers in this word, with a link of this name where it gives one.
fn answers<Li: Listener<Link = MemoryLink>>(
    listener: &mut Li,
    name: Option<u64>,
    word: &str,
) -> bool {
    is_answer(&listener.accept(), name, word)
}

// Hands over two entries.
fn take_two<D: Done<MemoryLink>>(
    done: &mut D,
    first: Entry<MemoryLink>,
    second: Entry<MemoryLink>,
) -> Result<(), AllocError> {
    done.make_room(2)?;
    done.take(first);
    done.take(second);
    Ok(())
}

// An entry of a link that gives nothing.
fn entry_of(alloc: Global, told: Told) -> Entry<MemoryLink> {
    Entry {
        serial: told.serial,
        token: told.token,
        place: told.place,
        link: link_named(alloc, told.name),
        outcome: told.outcome,
    }
}

#[test]
fn all_entries_are_kept_in_order(rt: HostRuntime) -> Result<(), Fail> {
    let alloc = rt.alloc();
    let first = Told {
        serial: 4,
        token: 1,
        place: 2,
        name: 20,
        outcome: Outcome::Served,
    };
    let second = Told {
        serial: 5,
        token: 0,
        place: 3,
        name: 21,
        outcome: Outcome::Memory,
    };
    let mut done = KeepAll::new(alloc);
    take_two(&mut done, entry_of(alloc, first), entry_of(alloc, second))?;
    assert!(rt; are_two(done.entries(), first, second));
    Ok(())
}

// A listener that skips and fails at its ends, and gives two links.
fn two_links_in_the_middle(alloc: Global) -> Result<MemoryListener, AllocError> {
    let steps = vec![in alloc;
        ListenerStep::Skip,
        ListenerStep::Give(link_named(alloc, 30)),
        ListenerStep::NotYet,
        ListenerStep::Give(link_named(alloc, 31)),
        ListenerStep::Fail,
    ]?;
    Ok(MemoryListener::new(alloc, steps))
}

#[test]
fn a_listener_in_memory_answers_its_steps_and_then_ended(rt: HostRuntime) -> Result<(), Fail> {
    let mut listener = two_links_in_the_middle(rt.alloc())?;
    assert!(rt; answers(&mut listener, None, "skipped"));
    assert!(rt; answers(&mut listener, Some(30), "got"));
    assert!(rt; answers(&mut listener, None, "not yet"));
    assert!(rt; answers(&mut listener, Some(31), "got"));
    assert!(rt; answers(&mut listener, None, "failed"));
    assert!(rt; answers(&mut listener, None, "ended"));
    assert!(rt; answers(&mut listener, None, "ended"));
    Ok(())
}

#[test]
fn each_end_has_its_outcome(rt: HostRuntime) {
    assert!(rt; Outcome::of(How::Served) == Outcome::Served);
    assert!(rt; Outcome::of(How::ReadFault) == Outcome::ReadFault);
    assert!(rt; Outcome::of(How::WriteFault) == Outcome::WriteFault);
    assert!(rt; Outcome::of(How::Upgraded) == Outcome::Upgraded);
    assert!(rt; Outcome::of(How::Memory) == Outcome::Memory);
}

#[test]
fn a_lost_connection_alone_is_lost(rt: HostRuntime) {
    assert!(rt; Outcome::Lost { worker: Some(2) }.is_lost());
    assert!(rt; Outcome::Lost { worker: None }.is_lost());
    assert!(rt; !Outcome::Served.is_lost());
    assert!(rt; !Outcome::ReadFault.is_lost());
    assert!(rt; !Outcome::WriteFault.is_lost());
    assert!(rt; !Outcome::Upgraded.is_lost());
    assert!(rt; !Outcome::Stopped { forced: false }.is_lost());
    assert!(rt; !Outcome::Stopped { forced: true }.is_lost());
    assert!(rt; !Outcome::Memory.is_lost());
}
