//! A binder in memory.
use crate::listening::Told::Got;
use crate::listening::{Told, next, two_listeners};
use server_bind::{BindFailed, Binder};
use server_run::{Host, MemoryListener};
use std::test::Fail;

// What the listener at a TCP address answers first, where it is bound.
fn at_port<Ho: Host, B: Binder<Listener = MemoryListener>>(
    rt: &Ho,
    binder: &mut B,
) -> Result<Told, BindFailed> {
    match binder.tcp(rt, "127.0.0.1:8080") {
        Ok(mut listener) => Ok(next(&mut listener)),
        Err(failed) => Err(failed),
    }
}

// What the listener at the path of a Unix socket answers first, where it is bound.
fn at_path<Ho: Host, B: Binder<Listener = MemoryListener>>(
    rt: &Ho,
    binder: &mut B,
) -> Result<Told, BindFailed> {
    match binder.unix(rt, "/run/app.sock") {
        Ok(mut listener) => Ok(next(&mut listener)),
        Err(failed) => Err(failed),
    }
}

#[test]
fn a_binder_in_memory_hands_out_its_listeners_in_order_and_then_refuses(
    rt: HostRuntime,
) -> Result<(), Fail> {
    let mut binder = two_listeners(rt.alloc())?;
    assert!(rt; at_port(&rt, &mut binder) == Ok(Got(1)));
    assert!(rt; at_port(&rt, &mut binder) == Err(BindFailed));
    assert!(rt; at_path(&rt, &mut binder) == Ok(Got(2)));
    assert!(rt; at_path(&rt, &mut binder) == Err(BindFailed));
    assert!(rt; at_port(&rt, &mut binder) == Err(BindFailed));
    Ok(())
}
