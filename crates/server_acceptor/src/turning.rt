//! A turn of the acceptor.
ghost use Rattle.std.specs.Prelude.{◌≡◌, ◌⊎◌, ◌+◌, ◌≤◌, ◌<◌, ◌%◌, ℕ, [], None, Some, length, slice_index_or, true, false, count_by};
ghost use Rattle.futures.specs.Task.{Keeps};
ghost use Rattle.server_run.specs.Delivery.{given_at};
ghost use Rattle.server_acceptor.specs.Accepting.{AcceptGoesOn, AsksInTurn, Does, EndsByFault, Finishes, HasHalted, IsAccepting, IsClosing, IsAskedOut, IsShort, LeavesStops, MayAsk, OnceEach, Proceeds, is_failed, refused};
ghost use Rattle.server_acceptor.specs.Acceptors.{all_ready, core_of, events_of, first_of, lacks_room_of, listeners_of, out_of, parcels_of, places_of, shutdown_timeout_of, stop_of, workers_of};
ghost use Rattle.server_acceptor.specs.Commanding.{KeepsStop, TakesCommands};
ghost use Rattle.server_acceptor.specs.Sending.{IsForced, IsStopped};
ghost use Rattle.server_acceptor.specs.Stopping.{ForcesAll, IsDue};
ghost use Rattle.server_acceptor.specs.declared.accept_turn.AcceptTurn.TheVariants.{Going, WorkerEnded, Finished as IsFinished};
ghost use Rattle.server_acceptor.specs.declared.step.Step.TheVariants as step;

use crate::accept_turn::AcceptTurn;
use crate::acceptor::Acceptor;
use crate::step::Step;
use futures::task::Context;
use server_commands::Commands;
use server_jobs::Clock;
use server_run::{Done, Listener};
use service_core::Link;

impl<L: Link> Acceptor<L> {
    // Whether all services stand, nothing keeps it from accepting, and no room for an entry was refused.
    fn may_accept(&self) -> bool
        ensures yes { result ≡ true → (all_ready self.now ≡ true) × (lacks_room_of self.now ≡ false) × IsAccepting (core_of self.now) }
        ensures no { result ≡ false → all_ready self.now ≡ true → lacks_room_of self.now ≡ false → IsAccepting (core_of self.now) → ⊥ }
    {
        if self.lacks_room || self.core.paused() || self.core.stopping() {
            return false;
        }
        self.all_ready()
    }

    // Takes what the workers hand back, gives them the connection that waits, and asks the listeners, once all services stand, where
    // the source of commands has no more.
    fn make_turn<Li: Listener<Link = L>, Do: Done<L>>(
        &mut self,
        listeners: &mut Vec<Li>,
        now: u64,
        idle: bool,
        done: &mut Do,
    ) -> Step
        requires as_many { length listeners.old.items ≡ listeners_of self.old }
        requires given { (t : ℕ) → slice_index_or (places_of self.old) t 0 ≤ given_at Li.given listeners.old.items t }
        requires spare { out_of self.old ≤ Do.spare done.old }
        requires none_failed { (t : ℕ) → count_by (is_failed t) (events_of self.old) ≡ 0 }
        requires none_refused { refused (Some []) (events_of self.old) ≡ Some [] }
        ensures given { (t : ℕ) → slice_index_or (places_of self.new) t 0 ≤ given_at Li.given listeners.new.items t }
        ensures spare { out_of self.new ≤ Do.spare done.new }
        ensures proceeds { Proceeds Li.given Li.left Li.rest L.identity Li.ended Li.faults Do.taken Do.count Do.served listeners.old.items listeners.new.items self.old self.new done.old done.new }
        ensures leaves { LeavesStops self.old self.new }
        ensures first { first_of self.new ≡ first_of self.old }
        ensures once { OnceEach (events_of self.new) }
        ensures in_turn { AsksInTurn Li.given Li.waits Li.skips listeners.old.items listeners.new.items self.old self.new now }
        ensures unasked { idle ≡ false → listeners.new ≡ listeners.old }
        ensures short { lacks_room_of self.old ≡ true → listeners.new ≡ listeners.old }
        ensures on { result ≡ step.On → ⊥ }
        ensures settled { result ≡ step.Settled → MayAsk self.new
            × (all_ready self.new ≡ true → lacks_room_of self.new ≡ false → IsAccepting (core_of self.new) → idle ≡ true → (t : ℕ) → t < listeners_of self.new
            → IsAskedOut Li.given Li.waits Li.skips listeners.old.items listeners.new.items self.new now t) }
        ensures halted { result ≡ step.Halted → HasHalted self.new }
        ensures ended { (w : ℕ) → result ≡ step.WorkerEnded w → (w < workers_of self.new) × EndsByFault self.old self.new w }
    {
        if let Some(w) = self.take_notes(done) {
            return Step::WorkerEnded(w);
        }
        match self.place_one::<Li, Do>(done) {
            Step::On => {}
            step => return step,
        }
        if !idle {
            return Step::Settled;
        }
        if !self.may_accept() {
            return Step::Settled;
        }
        self.ask_all(listeners, now, done)
    }

    /// Takes the commands that wait, and what the workers hand back, gives a worker the connection that waits, and asks the listeners
    /// in turn, once all services stand (a turn of `actix-server`'s `Accept`). `events` tells what happened.
    ///
    /// At most 256 commands are taken, before all else, and after as many no listener is asked. A pause and its end are settled at
    /// once. A source that ends while the acceptor is paused stops it gracefully. At a stop the connection that waits goes to `done`, as
    /// one that was stopped before a service began with it. The first stop says whether the workers may serve their connections to
    /// their end: each gets it, and where they may not, or `shutdown_timeout` seconds have gone by since, each gets one that is not
    /// graceful, which is tried again in the next turn where a ring has no place.
    ///
    /// Room for all connections that are at workers, and for one more, stands in `done` before each accept. A listener is asked at most
    /// 256 times, none while a connection waits, after a pause or a stop, and one that failed not before 500 ms have gone by on the
    /// clock.
    ///
    /// It is `WorkerEnded` where a worker told that it ends by a fault. After a stop it is `Finished` once each worker got its stop, and
    /// nothing is out or each worker got one that is not graceful; else once nothing more comes, nothing is out, and each worker got
    /// its stop. Else it is `Going`.
    pub fn turn<Li, Co, Cl, Do>(
        &mut self,
        cx: &mut Context<'_>,
        listeners: &mut Vec<Li>,
        commands: &mut Co,
        clock: &mut Cl,
        done: &mut Do,
    ) -> AcceptTurn
    where
        Li: Listener<Link = L>,
        Co: Commands,
        Cl: Clock,
        Do: Done<L>,
        requires as_many { length listeners.old.items ≡ listeners_of self.old }
        requires given { (t : ℕ) → slice_index_or (places_of self.old) t 0 ≤ given_at Li.given listeners.old.items t }
        requires spare { out_of self.old ≤ Do.spare done.old }
        ensures kept { Keeps cx.old cx.new }
        ensures given { (t : ℕ) → slice_index_or (places_of self.new) t 0 ≤ given_at Li.given listeners.new.items t }
        ensures spare { out_of self.new ≤ Do.spare done.new }

        // Its events tell what it did with the listeners, the rings and `done`: each connection that came is on a ring, waits or was
        // handed on, once.
        ensures does { Does Li.given Li.left Li.rest L.identity Li.ended Li.faults Do.taken Do.count Do.served listeners.old.items listeners.new.items self.old self.new done.old done.new (events_of self.new) }
        ensures once { OnceEach (events_of self.new) }

        // The commands that it took are the first of these.
        ensures takes { TakesCommands Co.given Co.stops Co.idles Co.ended (core_of self.old) commands.old commands.new (events_of self.new) }

        // The first stop stays. A force message goes out only where it is due, and then to each worker whose ring has a place.
        ensures onward { Cl.told clock.old ≤ Cl.told clock.new }
        ensures timeout { shutdown_timeout_of self.new ≡ shutdown_timeout_of self.old }
        ensures stop { KeepsStop (stop_of self.old) (stop_of self.new) (Cl.told clock.new) }
        ensures forces { (w : ℕ) → IsForced (parcels_of self.new) w → IsForced (parcels_of self.old) w ⊎ IsDue self.new (Cl.told clock.new) }
        ensures due { ((w : ℕ) → result ≡ WorkerEnded w → ⊥) → ForcesAll self.new (Cl.told clock.new) }

        // A stop goes out only after one came, or where nothing is left to do.
        ensures closes { (w : ℕ) → IsStopped (parcels_of self.new) w → IsStopped (parcels_of self.old) w ⊎ IsClosing self.new }

        // Each listener is asked in its turn, and another one first in the next turn. None is, once room for an entry was refused.
        ensures in_turn { AsksInTurn Li.given Li.waits Li.skips listeners.old.items listeners.new.items self.old self.new (Cl.told clock.new) }
        ensures first { first_of self.new ≡ (first_of self.old + 1) % listeners_of self.old }
        ensures short { lacks_room_of self.old ≡ true → listeners.new ≡ listeners.old }

        // It goes on only where it waits for something, or has no room for more events.
        ensures going { result ≡ Going → IsShort self.new
            ⊎ AcceptGoesOn Li.given Li.waits Li.skips Co.idles listeners.old.items listeners.new.items commands.old commands.new self.new (Cl.told clock.new) }
        ensures worker_ended { (w : ℕ) → result ≡ WorkerEnded w → (w < workers_of self.new) × EndsByFault self.old self.new w }
        ensures finished { (end : _) → result ≡ IsFinished end → Finishes self.new end }
    {
        self.events.clear();
        let now = clock.now();
        let idle = self.take_commands(cx, commands, now, done);
        let step = self.make_turn(listeners, now, idle, done);
        self.first = (self.first + 1) % self.places.len();
        if let Step::WorkerEnded(w) = step {
            return AcceptTurn::WorkerEnded(w);
        }
        self.come_to::<Li, Do>(now)
    }
}
