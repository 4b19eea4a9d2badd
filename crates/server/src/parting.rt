//! How a worker that ended by a fault is joined while the server accepts.
ghost use Rattle.std.specs.Prelude.{◌≡◌, ◌<◌, ◌^◌, false, IfSome, None, Some, length, slice_get};
ghost use Rattle.server_acceptor.specs.Acceptors.{workers_of};
ghost use Rattle.server.specs.Parting.{IsParted, RunsOver};
ghost use Rattle.server.specs.Replacing.{Goes};

use server_acceptor::Acceptor;
use server_jobs::{Handed, Handover, Running, ThreadFactory};
use server_run::{Done, Host, Listener};
use service_core::{Link, ServiceFactory};
use worker_job::{Departure, WorkerJob};

// Joins the worker, takes it out of the order, and looks at what is left in its rings. What it handed over, or None where none ran there.
pub(crate) fn part<Ho, Li, F, Do>(
    rt: &Ho,
    acceptor: &mut Acceptor<Li::Link>,
    w: usize,
    running: &mut Vec<Option<Running<WorkerJob<Li::Link, F>>>>,
) -> Option<
    Handed<
        Li::Link,
        F,
        Departure<
            <F::Factory as ServiceFactory<Li::Link>>::Error,
            <F::Factory as ServiceFactory<Li::Link>>::InitError,
        >,
    >,
>
where
    Ho: Host,
    Li: Listener<Link: Send>,
    F: ThreadFactory<Li::Link>,
    Do: Done<Li::Link>,
    requires number { (w < workers_of acceptor.old) × (w < length running.old.items) }
    requires over { RunsOver acceptor.old w running.old.items }
    ensures none { result ≡ None → (acceptor.new ≡ acceptor.old) × (slice_get running.old.items w ≡ Some None) × (running.new.items ≡ running.old.items) }
    ensures goes { (done : Do) → (Do.count done < 2 ^ 64) × (Do.served done < 2 ^ 64) → Goes Li.given Li.left Li.rest Li.Link.identity Li.ended Li.faults Do.taken Do.count Do.served acceptor.old acceptor.new done done false }
    ensures parted { (done : Do) → IfSome result (IsParted F.may_serve F.may_leave F.may_ready F.may_init F.may_make Li.Link.identity acceptor.old acceptor.new w running.old.items running.new.items) }
{
    let Some(ended) = running[w].take() else {
        return None;
    };
    let mut handed = ended.join(rt).into_handed();
    acceptor.leave::<Li, Do>(w);
    acceptor.look_beside::<Li, Do>(w, &mut handed.parcels, &mut handed.notes);
    Some(handed)
}
