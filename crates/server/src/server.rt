ghost use Rattle.std.specs.Prelude.{◌≡◌, ◌↔◌, ◌≤◌, ◌<◌, ◌+◌, ◌*◌, ℕ, [], false, IfOk, OnOk, OnErr, IfErr, IsErrOf, Err, length, vec_len};
ghost use Rattle.service_core.specs.Counts.{Rose};
ghost use Rattle.server_run.specs.Creating.{HasMeaningOf, IsStartup};
ghost use Rattle.server_run.specs.Report.{Tells, is_stop};
ghost use Rattle.server_run.specs.Serving.{MayFault, Untouched};
ghost use Rattle.server_run.specs.declared.report.End.TheVariants.{NoWorkers};
ghost use Rattle.server_run.specs.declared.serve_error.ServeError.TheVariants.{NoListener, Spawn};
ghost use Rattle.server.specs.Retiring.{Retirements};
ghost use Rattle.server.specs.Settings.{IsInRange, default_settings};
ghost use Rattle.server.specs.Starting.{RoseBy, Started};
ghost use Rattle.server.specs.Stopping.{Gave, IsTold, ServesInTime};

use crate::builder::ServerBuilder;
use crate::running::serve_by;
use crate::settings::Settings;
use server_commands::{CommandQueue, Commands, ServerHandle};
use server_jobs::{Clock, Spawner, ThreadFactory};
use server_run::{Done, Host, Listener, Report, ServeError};
use service_core::ServiceFactory;
use std::alloc::{AllocError, Global};

/// A server of the services that its factory makes (`actix-server`'s `Server`).
#[derive(Drop)]
pub struct Server<F> {
    pub(crate) factory: F,
    pub(crate) settings: Settings,
    // Where its handles post commands.
    pub(crate) queue: CommandQueue,
    ghost ranges: { IsInRange settings },
}

impl Server<()> {
    ghost use Rattle.server.specs.Servers.{settings_of};

    /// A builder with the default settings.
    pub fn build(alloc: Global) -> Result<ServerBuilder, AllocError>
        ensures { IfOk result (λ builder. settings_of builder ≡ default_settings) }
    {
        ServerBuilder::new(alloc)
    }
}

impl<F> Server<F> {
    ghost use Rattle.server.specs.Servers.{factory_of, server_settings};

    /// What tells the server to pause, to go on and to stop, from any thread (`actix-server`'s `Server::handle`). It posts where the
    /// builder's `handle_commands` take.
    pub fn handle(&self) -> Result<ServerHandle, AllocError> {
        self.queue.handle()
    }

    /// Serves each connection that the listeners give, on as many threads as there are workers, until each listener has ended,
    /// or failed as often as it may, or a command stops it. Each is handed to `done` with its link, exactly once.
    ///
    /// The worker that comes next in turn and has room gets a connection; where none has, it waits, and no listener is asked
    /// meanwhile. Nothing is accepted before the services of all workers stand, while a command has paused it, or after a stop.
    /// An error comes before the first accept, and all workers that were started are joined then, as they are at the end.
    ///
    /// After a stop what no service got is handed on as it came. A graceful stop lets a worker serve what it has, for as many
    /// seconds as `shutdown_timeout` sets; what is served still then, or at a stop that is not graceful, is handed on as it
    /// stands. A source of commands that ends while the server is paused stops it gracefully. Once all workers are joined the
    /// replies to its commands are ready, and so is every later one.
    ///
    /// After an error too the replies to the commands that came until then are ready.
    ///
    /// A worker of which a service errs and cannot be made anew is joined while the server accepts: what had ended there is handed
    /// on, and the rest as lost by it. Another thread takes its place, with the same number; where a stop came, where none can be
    /// started, or where its own services never stood, the worker is retired. Once none is left, and no stop came, the run ends as
    /// [`End::NoWorkers`](server_run::End), and a connection that waited is handed on as lost with no worker. Where nothing is left
    /// to do none is replaced: all are joined then.
    ///
    /// It waits for its threads, and they for the links. Of a listener that tells nothing of the links still to come (its
    /// `left` is `None`) `serves` holds little: how many entries there are, their numbers, and that each has some link as it
    /// came back, but not which link of the listener.
    pub fn serve<Ho, Li, Co, Cl, Sp, Do>(
        self,
        rt: &Ho,
        alloc: Global,
        listeners: &mut Vec<Li>,
        commands: &mut Co,
        clock: &mut Cl,
        spawner: &mut Sp,
        done: &mut Do,
    ) -> Result<Report, ServeError<<F::Factory as ServiceFactory<Li::Link>>::InitError>>
    where
        Ho: Host + 'static,
        Li: Listener<Link: Send + 'static>,
        F: ThreadFactory<Li::Link> + 'static,
        Co: Commands,
        Cl: Clock,
        Sp: Spawner,
        Do: Done<Li::Link>,
        Li::Link: 'static,
        <F::Factory as ServiceFactory<Li::Link>>::Error: 'static,
        <F::Factory as ServiceFactory<Li::Link>>::InitError: 'static,
        requires few { vec_len listeners.old ≤ 64 }
        requires clones { (copy : F) → F.is_clone (factory_of self) copy → HasMeaningOf F.may_serve F.may_leave F.may_ready F.may_init F.may_make (factory_of self) copy }
        ensures no_listener { IsErrOf result NoListener ↔ (listeners.old.items ≡ []) }
        ensures spawn { (worker : ℕ) → result ≡ Err (Spawn worker)
            → Rose (Sp.refusals spawner.old) (Sp.refusals spawner.new) × RoseBy worker (Sp.starts spawner.old) (Sp.starts spawner.new) }
        ensures unrefused { (MayFault (F.may_ready (factory_of self)) (F.may_init (factory_of self)) (vec_len listeners.old) → ⊥) → ((worker : ℕ) → result ≡ Err (Spawn worker) → ⊥) → Sp.refusals spawner.new ≡ Sp.refusals spawner.old }
        ensures startup { IfErr result (IsStartup (server_settings self).workers (vec_len listeners.old) (F.may_init (factory_of self))) }
        ensures same_count { length listeners.new.items ≡ length listeners.old.items }

        // An error comes before the first accept.
        ensures before { OnErr result (Untouched Li.given Li.left Do.taken Do.count Do.served listeners.old.items listeners.new.items done.old done.new) }

        // Each connection that the listeners gave was handed to `done`, exactly once and with its link, as a service of its
        // listener's token ended it, or as it stood, after a stop, for want of memory or of a worker; by force only after a stop
        // that was not graceful, or once the time of a graceful one was over. One is lost, and no worker is left, only where
        // services may fault.
        ensures serves { IfOk result (λ report. ServesInTime Li.given Li.left Li.Link.identity (F.may_serve (factory_of self)) (F.may_leave (factory_of self)) Do.taken Do.count Do.served listeners.old.items listeners.new.items done.old done.new (server_settings self).workers (MayFault (F.may_ready (factory_of self)) (F.may_init (factory_of self)) (vec_len listeners.old)) report.end
            (Cl.told clock.old + 1000 * (server_settings self).shutdown_timeout ≤ Cl.told clock.new)) }

        // It ends as stopped exactly where a stop came, or where the commands ended while it was paused.
        ensures commanded { IfOk result (λ report. IsTold Co.given Co.stops Co.ended commands.old commands.new report.end) }
        ensures heard { OnErr result (Gave Co.given Co.stops commands.old commands.new) }
        ensures settled { Co.unsettled commands.new ≡ false }
        ensures told { IfOk result (λ report. Tells Li.rest Li.ended Li.faults (server_settings self).retry_limit listeners.old.items listeners.new.items report) }
        ensures made { IfOk result (λ report. is_stop report.end ≡ false → (token : ℕ) → token < vec_len listeners.old → F.may_make (factory_of self) token) }

        // As many threads were started as there are workers, and more only where services may fault.
        ensures started { OnOk result (Started (MayFault (F.may_ready (factory_of self)) (F.may_init (factory_of self)) (vec_len listeners.old)) (server_settings self).workers (Sp.starts spawner.old) (Sp.starts spawner.new)) }

        // No worker is left only where for each of them a replacement was refused, or ended itself before its services stood.
        ensures alone { IfOk result (λ report. report.end ≡ NoWorkers → Retirements (F.may_init (factory_of self)) (vec_len listeners.old) (server_settings self).workers 0 (Sp.starts spawner.old + (server_settings self).workers, Sp.refusals spawner.old) (Sp.starts spawner.new, Sp.refusals spawner.new)) }
    {
        let Server {
            factory,
            settings,
            queue,
        } = self;
        let served = serve_by(
            rt, alloc, factory, settings, listeners, commands, clock, spawner, done,
        );
        commands.settled();
        queue.close(rt);
        served
    }
}
