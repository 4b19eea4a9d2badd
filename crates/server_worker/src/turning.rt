//! A worker's turn.
ghost use Rattle.std.specs.Prelude.{◌≡◌, ◌≢◌, ◌↔◌, ◌<◌, ◌≤◌, ◌+◌, ◌⊎◌, ℕ, [], Bool, length, cond, vec_len, true, false, Err, IfNone, IfSome};
ghost use Rattle.std.specs.VecDeque.{deque_len};
ghost use Rattle.futures.specs.Task.{Keeps};
ghost use Rattle.futures.specs.declared.task.Poll.TheVariants.{Ready as PollReady};
ghost use Rattle.rtrb.specs.Ring.{known_free, known_items};
ghost use Rattle.worker_core.specs.WorkerCore.{state_of};
ghost use Rattle.worker_core.specs.declared.worker_state.WorkerState.TheVariants as state;
ghost use Rattle.server_worker.specs.Asking.{ChecksUpTo};
ghost use Rattle.server_worker.specs.Changes.{HasChanged, HasYielded};
ghost use Rattle.server_worker.specs.Due.{PollsDue};
ghost use Rattle.server_worker.specs.Holding.{Accounts};
ghost use Rattle.server_worker.specs.Polled.{Admits, OwesMore, PollsLive};
ghost use Rattle.server_worker.specs.Sound.{IsSound, Tells};
ghost use Rattle.server_worker.specs.Standing.{AllMade};
ghost use Rattle.server_worker.specs.Stopping.{GivesUp, Returns, told_as};
ghost use Rattle.server_worker.specs.Taken.{Queues, Receives};
ghost use Rattle.server_worker.specs.Telling.{TellsNoReady, TellsReady};
ghost use Rattle.server_worker.specs.Turn.{ComesTo, GoesOn, IsFaulted, IsGoing, Works};
ghost use Rattle.server_worker.specs.Workers.{core_of, factory_of, forced_of, hand_of, held_by, is_asking, listeners_of, made_of, parcels_of, queue_of, services_of, slots_of, stopped_of, told_of, total_of};
ghost use Rattle.server_jobs.specs.Cards.{Card};
ghost use Rattle.server_jobs.specs.declared.note.Note.TheVariants.{Ready};
ghost use Rattle.server_worker.specs.declared.turned.Turned.TheVariants.{Going, Short, Left, Unstarted, Faulted};

use crate::admitting::admit;
use crate::fault::Fault;
use crate::making::make_services;
use crate::polling::poll_live;
use crate::readiness::check_readiness;
use crate::turned::Turned;
use crate::worker::Worker;
use futures::task::Context;
use server_jobs::Note;
use server_run::ServerServiceFactory;
use service_core::{Link, ServiceFactory};

// The number of no seat.
const NO_SEAT: usize = usize::MAX;

impl<L: Link, F: ServerServiceFactory<L>> Worker<L, F> {
    // Lets the acceptor know, once, that all services stand.
    fn tell_ready(&mut self)
        requires works { Works F.Factory.ServiceFactory F.Factory.Future.Future F.Factory.Service.Service F.Factory.Service.Future.Future F.Factory.Service.Future.may_stand
            (F.may_serve self.old.factory) (F.may_leave self.old.factory) (F.may_ready self.old.factory) (F.may_init self.old.factory) (F.may_make self.old.factory) self.old.services self.old.hand }
        ensures works { Works F.Factory.ServiceFactory F.Factory.Future.Future F.Factory.Service.Service F.Factory.Service.Future.Future F.Factory.Service.Future.may_stand
            (F.may_serve self.new.factory) (F.may_leave self.new.factory) (F.may_ready self.new.factory) (F.may_init self.new.factory) (F.may_make self.new.factory) self.new.services self.new.hand }
        ensures factory { self.new.factory ≡ self.old.factory }
        ensures slots { self.new.services.slots ≡ self.old.services.slots }
        ensures core { self.new.services.core ≡ self.old.services.core }
        ensures owes { OwesMore L.identity Ready self.old.hand self.new.hand }
        ensures told { self.new.services.made ≡ true → self.new.hand.told ≡ true }
        ensures stand { self.old.hand.told ≡ false → self.new.hand.told ≡ true → self.new.services.made ≡ true }
        ensures unmade { self.new.services.made ≡ false → ¬ AllMade self.new.services.slots.items }
    {
        if self.services.stand() && !self.hand.told {
            self.hand.told = true;
            self.hand.owed.push_back_reserved(Note::Ready);
        }
    }

    // Checks each service, where all were made. A fault says that one could not be made anew.
    fn check(
        &mut self,
        cx: &mut Context<'_>,
    ) -> Option<
        Fault<
            <F::Factory as ServiceFactory<L>>::Error,
            <F::Factory as ServiceFactory<L>>::InitError,
        >,
    >
        requires works { Works F.Factory.ServiceFactory F.Factory.Future.Future F.Factory.Service.Service F.Factory.Service.Future.Future F.Factory.Service.Future.may_stand
            (F.may_serve self.old.factory) (F.may_leave self.old.factory) (F.may_ready self.old.factory) (F.may_init self.old.factory) (F.may_make self.old.factory) self.old.services self.old.hand }
        ensures works { IfNone result (Works F.Factory.ServiceFactory F.Factory.Future.Future F.Factory.Service.Service F.Factory.Service.Future.Future F.Factory.Service.Future.may_stand
            (F.may_serve self.new.factory) (F.may_leave self.new.factory) (F.may_ready self.new.factory) (F.may_init self.new.factory) (F.may_make self.new.factory) self.new.services self.new.hand) }
        ensures factory { self.new.factory ≡ self.old.factory }
        ensures hand { self.new.hand ≡ self.old.hand }
        ensures made { self.new.services.made ≡ self.old.services.made }
        ensures all_made { self.new.services.made ≡ true → AllMade self.new.services.slots.items }
        ensures as_many { length self.new.services.slots.items ≡ length self.old.services.slots.items }
        ensures unmade { self.new.services.made ≡ false → self.new.services.slots ≡ self.old.services.slots }
        ensures checks { IfNone result (ChecksUpTo (F.may_ready self.new.factory) self.old.services.slots.items self.old.services.core self.new.services.slots.items self.new.services.core
            (cond self.new.services.made (length self.new.services.slots.items) 0)) }
        ensures armed { IfNone result ((t : ℕ) → HasChanged self.old.services.core self.new.services.core t → HasYielded cx.new) }
        ensures fault { IfSome result (λ fault. (fault.token < length self.new.services.slots.items) × F.may_ready self.new.factory fault.token (PollReady (Err fault.readiness))
            × F.may_init self.new.factory fault.token fault.error × (self.new.services.made ≡ true)) }
        ensures kept { Keeps cx.old cx.new }
    {
        if !self.services.made {
            return None;
        }
        check_readiness(&self.factory, &mut self.services, cx)
    }

    #[tactic(auto, using(crate::proofs::AdmitSteps::admits_same))]
    // Admits those that wait, where every service is available.
    fn admit_ready(&mut self, seat: usize)
        requires works { Works F.Factory.ServiceFactory F.Factory.Future.Future F.Factory.Service.Service F.Factory.Service.Future.Future F.Factory.Service.Future.may_stand
            (F.may_serve self.old.factory) (F.may_leave self.old.factory) (F.may_ready self.old.factory) (F.may_init self.old.factory) (F.may_make self.old.factory) self.old.services self.old.hand }
        ensures works { Works F.Factory.ServiceFactory F.Factory.Future.Future F.Factory.Service.Service F.Factory.Service.Future.Future F.Factory.Service.Future.may_stand
            (F.may_serve self.new.factory) (F.may_leave self.new.factory) (F.may_ready self.new.factory) (F.may_init self.new.factory) (F.may_make self.new.factory) self.new.services self.new.hand }
        ensures factory { self.new.factory ≡ self.old.factory }
        ensures services { self.new.services ≡ self.old.services }
        ensures admits { Admits L.identity self.old.hand self.new.hand }
        ensures all { self.new.services.made ≡ true → state_of self.new.services.core ≡ state.Available → self.new.hand.queue.items ≡ [] }
        ensures none { (self.new.services.made ≡ true → state_of self.new.services.core ≡ state.Available → ⊥) → self.new.hand.queue.items ≡ self.old.hand.queue.items }
    {
        if !self.services.made || !self.services.core.may_admit() {
            return;
        }
        admit(&self.factory, &self.services, &mut self.hand, seat);
    }

    // Hands back what has ended before, and polls none.
    fn hand_back(&mut self)
        requires sound { IsSound F.Factory.Service.Future.Future F.Factory.Service.Future.may_stand (F.may_serve self.old.factory) (F.may_leave self.old.factory) (F.may_make self.old.factory)
            (length self.old.services.slots.items) self.old.hand }
        ensures sound { IsSound F.Factory.Service.Future.Future F.Factory.Service.Future.may_stand (F.may_serve self.new.factory) (F.may_leave self.new.factory) (F.may_make self.new.factory)
            (length self.new.services.slots.items) self.new.hand }
        ensures factory { self.new.factory ≡ self.old.factory }
        ensures slots { self.new.services.slots ≡ self.old.services.slots }
        ensures core { self.new.services.core ≡ self.old.services.core }
        ensures made { self.new.services.made ≡ self.old.services.made }
        ensures factories { self.new.services.factories ≡ self.old.services.factories }
        ensures accounts { Accounts L.identity self.old.hand self.new.hand }
        ensures tells { Tells (F.may_serve self.new.factory) (F.may_leave self.new.factory) (F.may_make self.new.factory) (length self.new.services.slots.items) self.old.hand self.new.hand }
        ensures no_ready { TellsNoReady self.old.hand self.new.hand }
        ensures parcels { self.new.hand.parcels ≡ self.old.hand.parcels }
        ensures queue { self.new.hand.queue ≡ self.old.hand.queue }
        ensures strays { self.new.hand.strays ≡ self.old.hand.strays }
        ensures live { self.new.hand.live ≡ self.old.hand.live }
        ensures stopped { self.new.hand.stopped ≡ self.old.hand.stopped }
        ensures forced { self.new.hand.forced ≡ self.old.hand.forced }
        ensures stops { (forced : Bool) (h : Card → ℕ) → told_as L.identity forced h self.new.hand ≡ told_as L.identity forced h self.old.hand }
        ensures total { self.new.total ≡ vec_len self.new.hand.live + (deque_len self.new.hand.queue + vec_len self.new.hand.strays) }
    {
        self.posted = self.hand.post();
        self.total = self.hand.total();
    }

    // Polls the live connections that are due, or all, and hands back what has ended.
    pub(crate) fn serve_live(&mut self, every: bool, news: &[u32], cx: &mut Context<'_>)
        requires sound { IsSound F.Factory.Service.Future.Future F.Factory.Service.Future.may_stand (F.may_serve self.old.factory) (F.may_leave self.old.factory) (F.may_make self.old.factory)
            (length self.old.services.slots.items) self.old.hand }
        ensures sound { IsSound F.Factory.Service.Future.Future F.Factory.Service.Future.may_stand (F.may_serve self.new.factory) (F.may_leave self.new.factory) (F.may_make self.new.factory)
            (length self.new.services.slots.items) self.new.hand }
        ensures factory { self.new.factory ≡ self.old.factory }
        ensures slots { self.new.services.slots ≡ self.old.services.slots }
        ensures core { self.new.services.core ≡ self.old.services.core }
        ensures made { self.new.services.made ≡ self.old.services.made }
        ensures factories { self.new.services.factories ≡ self.old.services.factories }
        ensures accounts { Accounts L.identity self.old.hand self.new.hand }
        ensures polls { every ≡ true → PollsLive L.identity self.old.hand self.new.hand }
        ensures due { PollsDue L.identity news.now self.old.hand self.new.hand }
        ensures tells { Tells (F.may_serve self.new.factory) (F.may_leave self.new.factory) (F.may_make self.new.factory) (length self.new.services.slots.items) self.old.hand self.new.hand }
        ensures no_ready { TellsNoReady self.old.hand self.new.hand }
        ensures parcels { self.new.hand.parcels ≡ self.old.hand.parcels }
        ensures queue { self.new.hand.queue ≡ self.old.hand.queue }
        ensures strays { self.new.hand.strays ≡ self.old.hand.strays }
        ensures stopped { self.new.hand.stopped ≡ self.old.hand.stopped }
        ensures forced { self.new.hand.forced ≡ self.old.hand.forced }
        ensures stops { (forced : Bool) (h : Card → ℕ) → told_as L.identity forced h self.new.hand ≡ told_as L.identity forced h self.old.hand }
        ensures notes { (self.new.hand.owed.items ≡ []) ⊎ (known_free self.new.hand.notes ≤ 1) }
        ensures total { self.new.total ≡ vec_len self.new.hand.live + (deque_len self.new.hand.queue + vec_len self.new.hand.strays) }
        ensures kept { Keeps cx.old cx.new }
    {
        poll_live(
            &self.factory,
            &mut self.hand,
            self.services.slots.len(),
            every,
            news,
            cx,
        );
        self.posted = self.hand.post();
        self.total = self.hand.total();
    }

    // The turn of a worker that was not stopped, which took `all` that was in the ring, or not.
    fn turn_on(
        &mut self,
        all: bool,
        every: bool,
        news: &[u32],
        seat: usize,
        cx: &mut Context<'_>,
    ) -> Turned<
        <F::Factory as ServiceFactory<L>>::Error,
        <F::Factory as ServiceFactory<L>>::InitError,
    >
        requires unstopped { self.old.hand.stopped ≡ false }
        requires works { Works F.Factory.ServiceFactory F.Factory.Future.Future F.Factory.Service.Service F.Factory.Service.Future.Future F.Factory.Service.Future.may_stand
            (F.may_serve self.old.factory) (F.may_leave self.old.factory) (F.may_ready self.old.factory) (F.may_init self.old.factory) (F.may_make self.old.factory) self.old.services self.old.hand }
        ensures works { IsGoing result → Works F.Factory.ServiceFactory F.Factory.Future.Future F.Factory.Service.Service F.Factory.Service.Future.Future F.Factory.Service.Future.may_stand
            (F.may_serve self.new.factory) (F.may_leave self.new.factory) (F.may_ready self.new.factory) (F.may_init self.new.factory) (F.may_make self.new.factory) self.new.services self.new.hand }
        ensures sound { IsSound F.Factory.Service.Future.Future F.Factory.Service.Future.may_stand (F.may_serve self.new.factory) (F.may_leave self.new.factory) (F.may_make self.new.factory)
            (length self.new.services.slots.items) self.new.hand }
        ensures factory { self.new.factory ≡ self.old.factory }
        ensures listeners { length self.new.services.slots.items ≡ length self.old.services.slots.items }
        ensures accounts { Accounts L.identity self.old.hand self.new.hand }
        ensures tells { Tells (F.may_serve self.new.factory) (F.may_leave self.new.factory) (F.may_make self.new.factory) (length self.new.services.slots.items) self.old.hand self.new.hand }
        ensures ready { TellsReady self.new.services.slots.items self.old.hand self.new.hand }
        ensures ready_told { IsGoing result → self.new.services.made ≡ true → self.new.hand.told ≡ true }
        ensures stops { (forced : Bool) (h : Card → ℕ) → told_as L.identity forced h self.new.hand ≡ told_as L.identity forced h self.old.hand }
        ensures polls { (IsFaulted result → ⊥) → every ≡ true → PollsLive L.identity self.old.hand self.new.hand }
        ensures due { (IsFaulted result → ⊥) → PollsDue L.identity news.now self.old.hand self.new.hand }
        ensures unpolled { IsFaulted result → self.new.hand.live ≡ self.old.hand.live }
        ensures checks { (IsFaulted result → ⊥) → ChecksUpTo (F.may_ready self.new.factory) self.old.services.slots.items self.old.services.core self.new.services.slots.items self.new.services.core
            (cond self.new.services.made (length self.new.services.slots.items) 0) }
        ensures armed { (IsFaulted result → ⊥) → (token : ℕ) → HasChanged self.old.services.core self.new.services.core token → HasYielded cx.new }
        ensures admits { IsGoing result → self.new.services.made ≡ true → state_of self.new.services.core ≡ state.Available → self.new.hand.queue.items ≡ [] }
        ensures waits { (self.new.services.made ≡ true → state_of self.new.services.core ≡ state.Available → ⊥) → self.new.hand.queue.items ≡ self.old.hand.queue.items }
        ensures going { IsGoing result → GoesOn self.old.services.slots.items self.new.services self.new.hand }
        ensures parcels { self.new.hand.parcels ≡ self.old.hand.parcels }
        ensures stopped { self.new.hand.stopped ≡ false }
        ensures forced { self.new.hand.forced ≡ self.old.hand.forced }
        ensures all { result ≡ Going → all ≡ true }
        ensures short { result ≡ Short → all ≡ false }
        ensures total { self.new.total ≡ vec_len self.new.hand.live + (deque_len self.new.hand.queue + vec_len self.new.hand.strays) }
        ensures left { (b : _) → result ≡ Left b → ⊥ }
        ensures unstarted { (token : ℕ) (error : F.Factory.InitError) → result ≡ Unstarted token error
            → (token < length self.new.services.slots.items) × F.may_init self.new.factory token error × (self.new.services.made ≡ false) }
        ensures untold { (token : ℕ) (error : F.Factory.InitError) → result ≡ Unstarted token error → self.new.hand.told ≡ false }
        ensures faulted { (token : ℕ) (readiness : F.Factory.Error) (error : F.Factory.InitError) → result ≡ Faulted token readiness error
            → (token < length self.new.services.slots.items) × F.may_ready self.new.factory token (PollReady (Err readiness)) × F.may_init self.new.factory token error
            × (self.new.services.made ≡ true) × (self.new.hand.told ≡ true) }
        ensures kept { Keeps cx.old cx.new }
    {
        if let Some((token, error)) = make_services(&self.factory, &mut self.services.slots, cx) {
            self.serve_live(every, news, cx);
            return Turned::Unstarted { token, error };
        }
        self.tell_ready();
        if let Some(fault) = self.check(cx) {
            self.hand_back();
            return Turned::Faulted {
                token: fault.token,
                readiness: fault.readiness,
                error: fault.error,
            };
        }
        self.admit_ready(seat);
        self.serve_live(every, news, cx);
        self.come_to(all)
    }

    /// Takes what the ring to it holds, admits those that may be served, polls each live connection once, and hands back what has
    /// ended, as far as the ring back has places (a poll of `actix-server`'s `ServerWorker`).
    ///
    /// A service whose readiness errs is made anew by its factory, one at a time, and none is admitted meanwhile; what is served is
    /// polled on. It is `Faulted` where the factory refuses that. Then it polls none, and has what it had.
    ///
    /// Once it took a stop it makes and asks no service, and admits none. Those that wait it hands back as they came, as
    /// `Stopped { forced: false }`. A graceful stop lets those that are served end: they are polled on, each once a turn, and it is
    /// `Left(true)` once it holds none. By a stop that is not graceful it polls none: it hands back each live connection as it
    /// stands, as `Stopped { forced: true }`, and is `Left` at once, with true where none was live.
    ///
    /// It is `Unstarted` where a factory refuses a service. Else it is `Going`, or `Short` in place of that where memory for a
    /// parcel was refused, which then stays in the ring.
    pub fn turn(
        &mut self,
        cx: &mut Context<'_>,
    ) -> Turned<
        <F::Factory as ServiceFactory<L>>::Error,
        <F::Factory as ServiceFactory<L>>::InitError,
    >
        requires works { Works F.Factory.ServiceFactory F.Factory.Future.Future F.Factory.Service.Service F.Factory.Service.Future.Future F.Factory.Service.Future.may_stand
            (F.may_serve (factory_of self.old)) (F.may_leave (factory_of self.old)) (F.may_ready (factory_of self.old)) (F.may_init (factory_of self.old)) (F.may_make (factory_of self.old)) (services_of self.old) (hand_of self.old) }
        ensures works { IsGoing result → Works F.Factory.ServiceFactory F.Factory.Future.Future F.Factory.Service.Service F.Factory.Service.Future.Future F.Factory.Service.Future.may_stand
            (F.may_serve (factory_of self.new)) (F.may_leave (factory_of self.new)) (F.may_ready (factory_of self.new)) (F.may_init (factory_of self.new)) (F.may_make (factory_of self.new)) (services_of self.new) (hand_of self.new) }
        ensures sound { IsSound F.Factory.Service.Future.Future F.Factory.Service.Future.may_stand (F.may_serve (factory_of self.new)) (F.may_leave (factory_of self.new)) (F.may_make (factory_of self.new))
            (listeners_of self.new) (hand_of self.new) }
        ensures factory { factory_of self.new ≡ factory_of self.old }
        ensures listeners { listeners_of self.new ≡ listeners_of self.old }

        // Each connection that came is queued, live, handed back or kept for handing back, once; and what was told is true.
        ensures accounts { Accounts L.identity (hand_of self.old) (hand_of self.new) }
        ensures tells { Tells (F.may_serve (factory_of self.new)) (F.may_leave (factory_of self.new)) (F.may_make (factory_of self.new)) (listeners_of self.new) (hand_of self.old) (hand_of self.new) }
        ensures came { Receives (hand_of self.old) (hand_of self.new) }

        // That all services stand is told once, and then only.
        ensures ready { TellsReady (slots_of self.new) (hand_of self.old) (hand_of self.new) }
        ensures ready_told { IsGoing result → stopped_of self.new ≡ false → made_of self.new ≡ true → told_of self.new ≡ true }

        // Each live connection is polled once, but not after a stop that is not graceful, nor where a service could not be made anew.
        ensures polls { forced_of self.new ≡ false → (IsFaulted result → ⊥) → PollsLive L.identity (hand_of self.old) (hand_of self.new) }
        ensures unpolled { IsFaulted result → (hand_of self.new).live.items ≡ (hand_of self.old).live.items }

        // After a stop those that wait are handed back as they came; after one that is not graceful the live ones are, as they stand.
        // And else none is handed back so.
        ensures returns { stopped_of self.new ≡ true → Returns L.identity (hand_of self.old) (hand_of self.new) }
        ensures gives_up { forced_of self.new ≡ true → GivesUp L.identity (hand_of self.old) (hand_of self.new) }
        ensures unforced { forced_of self.new ≡ false → (h : Card → ℕ) → told_as L.identity true h (hand_of self.new) ≡ told_as L.identity true h (hand_of self.old) }
        ensures unstopped { stopped_of self.new ≡ false → (h : Card → ℕ) → told_as L.identity false h (hand_of self.new) ≡ told_as L.identity false h (hand_of self.old) }

        // Once all services were made each is asked, once, or made anew where it erred, but not after a stop. Where one stands no more,
        // or stands again, this poll has asked for another one. Where every one is available, no connection that has one stays in the
        // queue; and else none is admitted.
        ensures checks { (IsFaulted result → ⊥) → ChecksUpTo (F.may_ready (factory_of self.new)) (slots_of self.old) (core_of self.old) (slots_of self.new) (core_of self.new)
            (cond (is_asking self.new) (listeners_of self.new) 0) }
        ensures armed { (IsFaulted result → ⊥) → (token : ℕ) → HasChanged (core_of self.old) (core_of self.new) token → HasYielded cx.new }
        ensures admits { IsGoing result → made_of self.new ≡ true → state_of (core_of self.new) ≡ state.Available → queue_of self.new ≡ [] }
        ensures waits { stopped_of self.new ≡ false → (made_of self.new ≡ true → state_of (core_of self.new) ≡ state.Available → ⊥) → Queues (hand_of self.old) (hand_of self.new) }

        // It goes on only where it waits for something.
        ensures going { IsGoing result → GoesOn (slots_of self.old) (services_of self.new) (hand_of self.new) }
        ensures emptied { result ≡ Going → known_items (parcels_of self.new) ≡ [] }
        ensures short { result ≡ Short → 0 < length (known_items (parcels_of self.new)) }
        ensures total { forced_of self.new ≡ false → total_of self.new ≡ held_by self.new }
        ensures live_total { forced_of self.new ≡ true → total_of self.new ≡ vec_len (hand_of self.old).live }
        ensures left { (b : _) → result ≡ Left b
            → (stopped_of self.new ≡ true) × ((b ≡ true) ↔ (total_of self.new ≡ 0)) × (b ≡ false → forced_of self.new ≡ true) × (held_by self.new ≡ 0) }
        ensures stays { IsGoing result → stopped_of self.new ≡ true → (total_of self.new ≢ 0) × (forced_of self.new ≡ false) }
        ensures unstarted { (token : ℕ) (error : F.Factory.InitError) → result ≡ Unstarted token error
            → (token < listeners_of self.new) × F.may_init (factory_of self.new) token error × (made_of self.new ≡ false) × (stopped_of self.new ≡ false) }
        ensures untold { (token : ℕ) (error : F.Factory.InitError) → result ≡ Unstarted token error → told_of self.new ≡ false }
        ensures faulted { (token : ℕ) (readiness : F.Factory.Error) (error : F.Factory.InitError) → result ≡ Faulted token readiness error
            → (token < listeners_of self.new) × F.may_ready (factory_of self.new) token (PollReady (Err readiness)) × F.may_init (factory_of self.new) token error
            × (made_of self.new ≡ true) × (told_of self.new ≡ true) × (stopped_of self.new ≡ false) }
        ensures kept { Keeps cx.old cx.new }
    {
        self.turn_due(true, &[], NO_SEAT, cx)
    }

    /// The same, but that it need not poll every live connection. One rests of which the last poll told for which slot alone it waits:
    /// it is polled where that is in the list of the slots of which there is news, and else it stays as it was. Each that was admitted in
    /// this turn is polled, and so is each after a stop, and each where every one is to be. The link of each is boarded with the seat.
    pub fn turn_due(
        &mut self,
        every: bool,
        news: &[u32],
        seat: usize,
        cx: &mut Context<'_>,
    ) -> Turned<
        <F::Factory as ServiceFactory<L>>::Error,
        <F::Factory as ServiceFactory<L>>::InitError,
    >
        requires works { Works F.Factory.ServiceFactory F.Factory.Future.Future F.Factory.Service.Service F.Factory.Service.Future.Future F.Factory.Service.Future.may_stand
            (F.may_serve (factory_of self.old)) (F.may_leave (factory_of self.old)) (F.may_ready (factory_of self.old)) (F.may_init (factory_of self.old)) (F.may_make (factory_of self.old)) (services_of self.old) (hand_of self.old) }
        ensures works { IsGoing result → Works F.Factory.ServiceFactory F.Factory.Future.Future F.Factory.Service.Service F.Factory.Service.Future.Future F.Factory.Service.Future.may_stand
            (F.may_serve (factory_of self.new)) (F.may_leave (factory_of self.new)) (F.may_ready (factory_of self.new)) (F.may_init (factory_of self.new)) (F.may_make (factory_of self.new)) (services_of self.new) (hand_of self.new) }
        ensures sound { IsSound F.Factory.Service.Future.Future F.Factory.Service.Future.may_stand (F.may_serve (factory_of self.new)) (F.may_leave (factory_of self.new)) (F.may_make (factory_of self.new))
            (listeners_of self.new) (hand_of self.new) }
        ensures factory { factory_of self.new ≡ factory_of self.old }
        ensures listeners { listeners_of self.new ≡ listeners_of self.old }

        // Each connection that came is queued, live, handed back or kept for handing back, once; and what was told is true.
        ensures accounts { Accounts L.identity (hand_of self.old) (hand_of self.new) }
        ensures tells { Tells (F.may_serve (factory_of self.new)) (F.may_leave (factory_of self.new)) (F.may_make (factory_of self.new)) (listeners_of self.new) (hand_of self.old) (hand_of self.new) }
        ensures came { Receives (hand_of self.old) (hand_of self.new) }

        // That all services stand is told once, and then only.
        ensures ready { TellsReady (slots_of self.new) (hand_of self.old) (hand_of self.new) }
        ensures ready_told { IsGoing result → stopped_of self.new ≡ false → made_of self.new ≡ true → told_of self.new ≡ true }

        // Each live connection is polled once, or rests, but not after a stop that is not graceful, nor where a service could not be made
        // anew. One that rests has waited before, so none does that was admitted; of the slot for which it waits there is no news, and it stays
        // as it was.
        ensures polls { forced_of self.new ≡ false → (IsFaulted result → ⊥) → every ≡ true → PollsLive L.identity (hand_of self.old) (hand_of self.new) }
        ensures due { forced_of self.new ≡ false → (IsFaulted result → ⊥) → PollsDue L.identity news.now (hand_of self.old) (hand_of self.new) }
        ensures unpolled { IsFaulted result → (hand_of self.new).live.items ≡ (hand_of self.old).live.items }

        // After a stop those that wait are handed back as they came; after one that is not graceful the live ones are, as they stand.
        // And else none is handed back so.
        ensures returns { stopped_of self.new ≡ true → Returns L.identity (hand_of self.old) (hand_of self.new) }
        ensures gives_up { forced_of self.new ≡ true → GivesUp L.identity (hand_of self.old) (hand_of self.new) }
        ensures unforced { forced_of self.new ≡ false → (h : Card → ℕ) → told_as L.identity true h (hand_of self.new) ≡ told_as L.identity true h (hand_of self.old) }
        ensures unstopped { stopped_of self.new ≡ false → (h : Card → ℕ) → told_as L.identity false h (hand_of self.new) ≡ told_as L.identity false h (hand_of self.old) }

        // Once all services were made each is asked, once, or made anew where it erred, but not after a stop. Where one stands no more,
        // or stands again, this poll has asked for another one. Where every one is available, no connection that has one stays in the
        // queue; and else none is admitted.
        ensures checks { (IsFaulted result → ⊥) → ChecksUpTo (F.may_ready (factory_of self.new)) (slots_of self.old) (core_of self.old) (slots_of self.new) (core_of self.new)
            (cond (is_asking self.new) (listeners_of self.new) 0) }
        ensures armed { (IsFaulted result → ⊥) → (token : ℕ) → HasChanged (core_of self.old) (core_of self.new) token → HasYielded cx.new }
        ensures admits { IsGoing result → made_of self.new ≡ true → state_of (core_of self.new) ≡ state.Available → queue_of self.new ≡ [] }
        ensures waits { stopped_of self.new ≡ false → (made_of self.new ≡ true → state_of (core_of self.new) ≡ state.Available → ⊥) → Queues (hand_of self.old) (hand_of self.new) }

        // It goes on only where it waits for something.
        ensures going { IsGoing result → GoesOn (slots_of self.old) (services_of self.new) (hand_of self.new) }
        ensures emptied { result ≡ Going → known_items (parcels_of self.new) ≡ [] }
        ensures short { result ≡ Short → 0 < length (known_items (parcels_of self.new)) }
        ensures total { forced_of self.new ≡ false → total_of self.new ≡ held_by self.new }
        ensures live_total { forced_of self.new ≡ true → total_of self.new ≡ vec_len (hand_of self.old).live }
        ensures left { (b : _) → result ≡ Left b
            → (stopped_of self.new ≡ true) × ((b ≡ true) ↔ (total_of self.new ≡ 0)) × (b ≡ false → forced_of self.new ≡ true) × (held_by self.new ≡ 0) }
        ensures stays { IsGoing result → stopped_of self.new ≡ true → (total_of self.new ≢ 0) × (forced_of self.new ≡ false) }
        ensures unstarted { (token : ℕ) (error : F.Factory.InitError) → result ≡ Unstarted token error
            → (token < listeners_of self.new) × F.may_init (factory_of self.new) token error × (made_of self.new ≡ false) × (stopped_of self.new ≡ false) }
        ensures untold { (token : ℕ) (error : F.Factory.InitError) → result ≡ Unstarted token error → told_of self.new ≡ false }
        ensures faulted { (token : ℕ) (readiness : F.Factory.Error) (error : F.Factory.InitError) → result ≡ Faulted token readiness error
            → (token < listeners_of self.new) × F.may_ready (factory_of self.new) token (PollReady (Err readiness)) × F.may_init (factory_of self.new) token error
            × (made_of self.new ≡ true) × (told_of self.new ≡ true) × (stopped_of self.new ≡ false) }
        ensures kept { Keeps cx.old cx.new }
    {
        let all = self.hand.take(self.services.slots.len());
        if self.hand.stopped {
            return self.turn_after_stop(all, cx);
        }
        self.turn_on(all, every, news, seat, cx)
    }

    // What the turn comes to, where it took `all` that was in the ring, or not.
    pub(crate) fn come_to(
        &self,
        all: bool,
    ) -> Turned<
        <F::Factory as ServiceFactory<L>>::Error,
        <F::Factory as ServiceFactory<L>>::InitError,
    >
        ensures { ComesTo self.now.hand.stopped self.now.hand.forced self.now.total all result }
    {
        if self.hand.forced {
            return Turned::Left(self.total == 0);
        }
        if self.hand.stopped && self.total == 0 {
            return Turned::Left(true);
        }
        if all { Turned::Going } else { Turned::Short }
    }
}
