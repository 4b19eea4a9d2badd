ghost use Rattle.std.specs.Prelude.{◌≡◌, ◌≤◌, ◌<◌, ◌^◌, Err, IfOk, IfErr};
ghost use Rattle.service_core.specs.Counts.{Rose};
ghost use Rattle.server.specs.Starting.{RoseBy};
ghost use Rattle.listening.specs.Listening.{IsUnheard, Listened};
ghost use Rattle.listening.specs.declared.listen_error.ListenError.TheVariants.{Refused};

use crate::binding::bound_listener;
use crate::heard::Heard;
use crate::listen_error::ListenError;
use crate::serving::serve_listener;
use server_bind::Binder;
use server_jobs::{Clock, Spawner};
use server_run::{Host, Listener};
use std::alloc::Global;

/// Binds a TCP address and serves the connections that come there, at most so many, on so many workers: the handler `hello` under
/// the permissive policy. Their links are closed. Returns how many there were, or why nothing was served.
pub fn listen<Ho, Cl, Sp, Bi>(
    rt: &Ho,
    alloc: Global,
    addr: &str,
    limit: u64,
    workers: usize,
    clock: &mut Cl,
    spawner: &mut Sp,
    binder: &mut Bi,
) -> Result<Heard, ListenError>
where
    Ho: Host + 'static,
    Cl: Clock,
    Sp: Spawner,
    Bi: Binder<Listener: Listener<Link: Send + 'static>>,
    <Bi::Listener as Listener>::Link: 'static,
    requires few { limit < 2 ^ 48 }
    requires workers { (1 ≤ workers) × (workers ≤ 512) }
    ensures started { IfOk result (λ _. RoseBy workers (Sp.starts spawner.old) (Sp.starts spawner.new)) }
    ensures listened { IfOk result (Listened Bi.stock Bi.Listener.left Bi.Listener.rest Bi.Listener.Link.Link binder.old binder.new limit) }
    ensures unheard { IfErr result (IsUnheard (Rose (Bi.refusals binder.old) (Bi.refusals binder.new)) (Rose (Sp.refusals spawner.old) (Sp.refusals spawner.new))) }
    ensures bound { (result ≡ Err Refused → ⊥) → Bi.refusals binder.new ≡ Bi.refusals binder.old }
{
    match bound_listener(rt, alloc, addr, binder) {
        Ok(listener) => serve_listener(rt, alloc, listener, limit, workers, clock, spawner),
        Err(error) => Err(error),
    }
}
