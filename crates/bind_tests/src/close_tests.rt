//! What closes the links that it is given.
use crate::listening::link_named;
use server_bind::CloseAll;
use server_run::{Done, Entry, MemoryLink, Outcome};
use std::alloc::{AllocError, Global};
use std::test::Fail;

// An entry of this outcome.
fn entry_of(alloc: Global, serial: u64, outcome: Outcome) -> Entry<MemoryLink> {
    Entry {
        serial,
        token: 0,
        place: serial,
        link: link_named(alloc, serial),
        outcome,
    }
}

// Hands over two entries.
fn take_two<D: Done<MemoryLink>>(
    done: &mut D,
    first: Entry<MemoryLink>,
    second: Entry<MemoryLink>,
) -> Result<(), AllocError> {
    done.make_room(2)?;
    done.take(first);
    done.take(second);
    Ok(())
}

#[test]
fn closed_connections_are_counted_and_those_that_were_served(rt: HostRuntime) -> Result<(), Fail> {
    let alloc = rt.alloc();
    let mut done = CloseAll::new();
    assert!(rt; done.entries() == 0 && done.served() == 0);
    let served = entry_of(alloc, 0, Outcome::Served);
    let failed = entry_of(alloc, 1, Outcome::ReadFault);
    take_two(&mut done, served, failed)?;
    assert!(rt; done.entries() == 2 && done.served() == 1);
    Ok(())
}
