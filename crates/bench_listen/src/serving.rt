//! A server over sockets.
ghost use Rattle.std.specs.Prelude.{◌≤◌};

use listening::listen;
use server_edge::{ReactorHost, SystemClock, ThreadSpawner};
use server_reactor::Reactor;
use server_run::Host;
use server_sockets::MioBinder;
use std::alloc::Global;
use std::sync::Arc;

/// Serves so many connections that come to the address, by so many workers, and tells how many of them were served.
pub fn serve<Ho: Host + 'static>(
    rt: &Ho,
    alloc: Global,
    addr: &str,
    limit: u32,
    workers: usize,
) -> Option<u64>
    requires { (1 ≤ workers) × (workers ≤ 512) }
{
    let reactor = Arc::new(alloc, Reactor::new(rt, alloc).ok()?).ok()?;
    let mut spawner = ThreadSpawner::over(alloc, Arc::try_clone(&reactor).ok()?).ok()?;
    let mut binder = MioBinder::over(Arc::try_clone(&reactor).ok()?);
    let host = ReactorHost::over(rt.clone().ok()?, reactor);
    let mut clock = SystemClock::new(&host);
    let heard = listen(
        &host,
        alloc,
        addr,
        limit as u64,
        workers,
        &mut clock,
        &mut spawner,
        &mut binder,
    );
    Some(heard.ok()?.served)
}
