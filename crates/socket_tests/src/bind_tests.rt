//! Binds, and why they are refused.
use server_bind::Binder;
use server_run::{Host, Listener};
use server_sockets::{MioBinder, SocketBindError};
use std::alloc::Global;
use std::io::ErrorKind;
use std::net::SocketAddr;
use std::test::Fail;
use std::{env, fs, io, process};

// Links and listeners of such a binder may go to other threads.
fn may_cross<Bi: Binder<Listener: Listener<Link: Send + 'static> + Send + 'static>>(
    binder: Bi,
) -> Bi {
    binder
}

// Whether the binder last refused an address for this reason of the system.
fn is_refused_by(binder: &MioBinder, kind: ErrorKind) -> bool {
    match binder.last_error() {
        Some(SocketBindError::System(error)) => error.kind() == kind,
        _ => false,
    }
}

// Whether the binder last refused a text that is no address.
fn is_no_address(binder: &MioBinder) -> bool {
    matches!(binder.last_error(), Some(SocketBindError::NoAddress))
}

// Whether an address at which one listens is refused to a second, and counted.
fn second_is_refused<Ho: Host>(rt: &Ho, alloc: Global) -> io::Result<bool> {
    let mut binder = may_cross(MioBinder::new());
    let first = binder.tcp(rt, "127.0.0.1:0");
    let Some(addr) = binder.local_addr() else {
        return Ok(false);
    };
    let none = binder.refusals() == 0 && binder.last_error().is_none();
    let text = format!(in alloc; "{addr}")?;
    let second = binder.tcp(rt, text.as_str());
    let counted = binder.refusals() == 1 && is_refused_by(&binder, ErrorKind::AddrInUse);
    let told = format!(in alloc;
        "{}",
        binder.last_error().unwrap_or(SocketBindError::NoAddress)
    )?;
    let kept = binder.local_addr() == Some(addr);
    drop(first);
    let third = binder.tcp(rt, text.as_str());
    Ok(
        none && second.is_err()
            && counted
            && told.as_str() == "Address already in use (os error 98)"
            && kept
            && third.is_ok()
            && binder.refusals() == 1,
    )
}

#[test]
fn an_address_is_bound_once(rt: HostRuntime) -> Result<(), Fail> {
    assert!(rt; second_is_refused(&rt, rt.alloc())?);
    Ok(())
}

// Whether these texts are refused, as they are no addresses.
fn are_refused<Ho: Host>(rt: &Ho, texts: &[&str]) -> bool {
    let mut binder = MioBinder::new();
    let mut refusals = 0u64;
    for text in texts {
        refusals = refusals.saturating_add(1);
        if binder.tcp(rt, text).is_ok()
            || !is_no_address(&binder)
            || binder.refusals() != refusals
        {
            return false;
        }
    }
    binder.local_addr().is_none()
}

#[test]
fn a_text_that_is_no_address_is_refused(rt: HostRuntime) -> Result<(), Fail> {
    let texts = [
        "",
        "localhost:80",
        "127.0.0.1",
        "127.0.0.1:65536",
        "127.0.0.1:80 ",
        ":80",
        "::1:80x",
    ];
    assert!(rt; are_refused(&rt, &texts));
    let told = format!(in rt.alloc(); "{}", SocketBindError::NoAddress)?;
    assert!(rt; told.as_str() == "not an address");
    Ok(())
}

// Whether an address of IPv6 is bound, or refused by a system that has none.
fn six_is_an_address<Ho: Host>(rt: &Ho) -> bool {
    let mut binder = MioBinder::new();
    match binder.tcp(rt, "[::1]:0") {
        Ok(_) => matches!(binder.local_addr(), Some(SocketAddr::V6(_))),
        Err(_) => !is_no_address(&binder),
    }
}

#[test]
fn an_address_of_the_newer_form_is_one(rt: HostRuntime) {
    assert!(rt; six_is_an_address(&rt));
}

// Whether a path is refused where a socket or a file is, and no path is refused too. What stood there stays.
fn path_is_refused<Ho: Host>(rt: &Ho, path: &str) -> io::Result<bool> {
    let mut binder = MioBinder::new();
    fs::write(rt, path, b"mine")?;
    let over_file = binder.unix(rt, path).is_err() && is_refused_by(&binder, ErrorKind::AddrInUse);
    let kept = fs::read(rt, path)?.as_slice() == b"mine".as_slice();
    fs::remove_file(rt, path)?;
    let first = binder.unix(rt, path);
    let second = binder.unix(rt, path).is_err() && is_refused_by(&binder, ErrorKind::AddrInUse);
    drop(first);
    let third = binder.unix(rt, path).is_err() && is_refused_by(&binder, ErrorKind::AddrInUse);
    let empty = binder.unix(rt, "").is_err() && is_no_address(&binder);
    fs::remove_file(rt, path)?;
    Ok(over_file && kept && second && third && empty && binder.refusals() == 4)
}

#[test]
fn a_path_is_bound_once(rt: HostRuntime) -> Result<(), Fail> {
    let name = format!(in rt.alloc(); "socket-tests-bind-{}", process::id(rt.process()))?;
    let path = env::temp_dir(&rt)?.join(rt.alloc(), name.as_str())?;
    let Some(text) = path.to_str() else {
        return Ok(());
    };
    assert!(rt; path_is_refused(&rt, text)?);
    Ok(())
}
