//! How a server comes to its listeners.
use crate::listening::Told::Got;
use crate::listening::{next, one_connection, two_listeners};
use crate::two_addresses::TwoAddresses;
use server::{BindError, ServerBuilder};
use server_bind::Binder;
use server_run::{Host, MemoryListener};
use std::alloc::{AllocError, Global};
use std::test::Fail;

// The token that a bind answers, where the address is not refused.
fn token_of(bound: Result<usize, BindError>) -> Result<Option<usize>, AllocError> {
    match bound {
        Ok(token) => Ok(Some(token)),
        Err(BindError::Refused) => Ok(None),
        Err(BindError::Memory) => Err(AllocError),
    }
}

// Binds a TCP address.
fn bind<Ho: Host, B: Binder>(
    rt: &Ho,
    builder: &ServerBuilder,
    binder: &mut B,
    listeners: &mut Vec<B::Listener>,
) -> Result<Option<usize>, AllocError> {
    token_of(builder.bind(rt, binder, "127.0.0.1:8080", listeners))
}

// Binds the path of a Unix socket.
fn bind_uds<Ho: Host, B: Binder>(
    rt: &Ho,
    builder: &ServerBuilder,
    binder: &mut B,
    listeners: &mut Vec<B::Listener>,
) -> Result<Option<usize>, AllocError> {
    token_of(builder.bind_uds(rt, binder, "/run/app.sock", listeners))
}

// Puts a listener behind the others.
fn listen<Li: Drop>(
    builder: &ServerBuilder,
    listeners: &mut Vec<Li>,
    listener: Li,
) -> Result<usize, AllocError> {
    match builder.listen(listeners, listener) {
        Ok(token) => Ok(token),
        Err(_) => Err(AllocError),
    }
}

// Puts a listener of a Unix socket behind the others.
fn listen_uds<Li: Drop>(
    builder: &ServerBuilder,
    listeners: &mut Vec<Li>,
    listener: Li,
) -> Result<usize, AllocError> {
    match builder.listen_uds(listeners, listener) {
        Ok(token) => Ok(token),
        Err(_) => Err(AllocError),
    }
}

// Whether the next answers of the listeners are connections of these names, each of one.
fn give(listeners: &mut Vec<MemoryListener>, names: &[u64]) -> bool {
    if listeners.len() != names.len() {
        return false;
    }
    for token in 0..names.len() {
        if next(&mut listeners[token]) != Got(names[token]) {
            return false;
        }
    }
    true
}

#[test]
fn a_refused_address_leaves_the_listeners_as_they_were(rt: HostRuntime) -> Result<(), Fail> {
    let builder = server::new(rt.alloc())?;
    let mut binder = two_listeners(rt.alloc())?;
    let mut listeners = Vec::new(rt.alloc());
    assert!(rt; bind(&rt, &builder, &mut binder, &mut listeners)? == Some(0));
    assert!(rt; bind(&rt, &builder, &mut binder, &mut listeners)? == None);
    assert!(rt; give(&mut listeners, &[1]));
    Ok(())
}

#[test]
fn each_new_listener_stands_behind_the_others(rt: HostRuntime) -> Result<(), Fail> {
    let alloc = rt.alloc();
    let builder = server::new(alloc)?;
    let mut binder = two_listeners(alloc)?;
    let mut listeners = Vec::new(alloc);
    assert!(rt; bind(&rt, &builder, &mut binder, &mut listeners)? == Some(0));
    assert!(rt; listen(&builder, &mut listeners, one_connection(alloc, 7)?)? == 1);
    assert!(rt; bind_uds(&rt, &builder, &mut binder, &mut listeners)? == None);
    assert!(rt; bind_uds(&rt, &builder, &mut binder, &mut listeners)? == Some(2));
    assert!(rt; listen_uds(&builder, &mut listeners, one_connection(alloc, 8)?)? == 3);
    assert!(rt; give(&mut listeners, &[1, 7, 2, 8]));
    Ok(())
}

#[test]
fn an_address_reaches_the_binder_and_a_path_is_no_tcp_address(rt: HostRuntime) -> Result<(), Fail> {
    let alloc = rt.alloc();
    let builder = server::new(alloc)?;
    let mut binder = TwoAddresses::new(one_connection(alloc, 3)?, one_connection(alloc, 4)?);
    let mut listeners = Vec::new(alloc);
    assert!(rt; bind_uds(&rt, &builder, &mut binder, &mut listeners)? == Some(0));
    assert!(rt; bind(&rt, &builder, &mut binder, &mut listeners)? == Some(1));
    assert!(rt; bind(&rt, &builder, &mut binder, &mut listeners)? == None);
    assert!(rt; give(&mut listeners, &[4, 3]));
    Ok(())
}

// Whether an error is printed so.
fn prints(alloc: Global, error: BindError, text: &str) -> Result<bool, AllocError> {
    let printed = format!(in alloc; "{error}")?;
    Ok(printed.as_str() == text)
}

#[test]
fn bind_errors_are_printed_by_their_texts(rt: HostRuntime) -> Result<(), Fail> {
    let alloc = rt.alloc();
    assert!(rt; prints(alloc, BindError::Refused, "bind refused")?);
    assert!(rt; prints(alloc, BindError::Memory, "out of memory")?);
    Ok(())
}
