//! Jobs that wait for sockets, and the thread of their starter.
use crate::idler::Idler;
use server_bind::{BindFailed, Binder};
use server_edge::{ReactorHost, ThreadSpawner};
use server_jobs::Spawner;
use server_reactor::Reactor;
use server_run::Host;
use server_sockets::{MioBinder, SocketBindError, SocketListener};
use std::alloc::{AllocError, Global};
use std::io;
use std::sync::Arc;
use std::sync::atomic::AtomicBool;
use std::sync::atomic::Ordering::SeqCst;
use std::test::Fail;

// What an idler hands over that is stopped after its starter has rested. No thread for it is want of memory.
fn handed_over<Ho: Host + 'static, Sp: Spawner>(
    host: &Ho,
    alloc: Global,
    spawner: &mut Sp,
) -> Result<(bool, bool), AllocError> {
    let stop = Arc::new(alloc, AtomicBool::new(false))?;
    let idler = Idler {
        stop: Arc::try_clone(&stop)?,
    };
    let Ok(running) = spawner.start(host, idler) else {
        return Err(AllocError);
    };
    spawner.rest(host, false);
    spawner.rest(host, true);
    stop.store(true, SeqCst);
    spawner.ring(running.number());
    Ok(running.join(host))
}

// A listener at a port of the system's choosing, or why there is none.
fn bound<Ho: Host>(host: &Ho, binder: &mut MioBinder) -> io::Result<SocketListener> {
    match binder.tcp(host, "127.0.0.1:0") {
        Ok(listener) => Ok(listener),
        Err(BindFailed) => match binder.last_error() {
            Some(SocketBindError::System(error)) => Err(error),
            _ => Err(io::ErrorKind::InvalidInput.into()),
        },
    }
}

// What is handed over by an idler with a reactor, which has a listener or not.
fn with_reactor<Ho: Host + 'static>(
    rt: &Ho,
    alloc: Global,
    listens: bool,
) -> io::Result<(bool, bool)> {
    let reactor = Arc::new(alloc, Reactor::new(rt, alloc)?)?;
    let mut listener: Option<SocketListener> = None;
    if listens {
        let mut binder = MioBinder::over(Arc::try_clone(&reactor)?);
        listener = Some(bound(rt, &mut binder)?);
    }
    let host = ReactorHost::over(rt.clone()?, Arc::try_clone(&reactor)?);
    let mut spawner = ThreadSpawner::over(alloc, reactor)?;
    let over = handed_over(&host, alloc, &mut spawner)?;
    drop(listener);
    Ok(over)
}

#[test]
fn a_job_sleeps_in_its_host_until_it_is_rung_for(rt: HostRuntime) -> Result<(), Fail> {
    assert!(rt; with_reactor(&rt, rt.alloc(), true)? == (true, true));
    Ok(())
}

#[test]
fn a_job_parks_where_nothing_listens(rt: HostRuntime) -> Result<(), Fail> {
    assert!(rt; with_reactor(&rt, rt.alloc(), false)? == (true, false));
    Ok(())
}
