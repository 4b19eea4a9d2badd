//! A listener that ends after a number of connections.
use crate::listening::Told::{Ended, Got, NotYet};
use crate::listening::{link_named, next};
use server_bind::Limited;
use server_run::{ListenerStep, MemoryListener};
use std::alloc::{AllocError, Global};
use std::test::Fail;

// A listener of the connections 1, 2 and 3, where nothing has come behind the first.
fn three_connections(alloc: Global) -> Result<MemoryListener, AllocError> {
    let steps = vec![in alloc;
        ListenerStep::Give(link_named(alloc, 1)),
        ListenerStep::NotYet,
        ListenerStep::Give(link_named(alloc, 2)),
        ListenerStep::Give(link_named(alloc, 3)),
    ]?;
    Ok(MemoryListener::new(alloc, steps))
}

#[test]
fn a_limited_listener_ends_at_its_limit_and_the_one_behind_it_goes_on(
    rt: HostRuntime,
) -> Result<(), Fail> {
    let mut limited = Limited::new(three_connections(rt.alloc())?, 2);
    assert!(rt; next(&mut limited) == Got(1));
    assert!(rt; next(&mut limited) == NotYet);
    assert!(rt; next(&mut limited) == Got(2));
    assert!(rt; next(&mut limited) == Ended);
    assert!(rt; next(&mut limited) == Ended);
    let mut behind = limited.into_inner();
    assert!(rt; next(&mut behind) == Got(3));
    assert!(rt; next(&mut behind) == Ended);
    Ok(())
}

#[test]
fn a_limited_listener_ends_where_the_one_behind_it_does(rt: HostRuntime) -> Result<(), Fail> {
    let mut limited = Limited::new(three_connections(rt.alloc())?, 4);
    assert!(rt; next(&mut limited) == Got(1));
    assert!(rt; next(&mut limited) == NotYet);
    assert!(rt; next(&mut limited) == Got(2));
    assert!(rt; next(&mut limited) == Got(3));
    assert!(rt; next(&mut limited) == Ended);
    assert!(rt; next(&mut limited) == Ended);
    Ok(())
}

#[test]
fn a_listener_with_the_limit_zero_has_ended(rt: HostRuntime) -> Result<(), Fail> {
    let mut limited = Limited::new(three_connections(rt.alloc())?, 0);
    assert!(rt; next(&mut limited) == Ended);
    Ok(())
}
