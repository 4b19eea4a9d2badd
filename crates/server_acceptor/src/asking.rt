//! How the acceptor asks its listeners, one after the other.
ghost use Rattle.std.specs.Prelude.{◌≡◌, ◌⊎◌, ◌+◌, ◌*◌, ◌≤◌, ◌<◌, ℕ, List, [], length, true, false, None, Some, is_some, slice_index_or, slice_get, count_by};
ghost use Rattle.server_core.specs.Core.{is_open};
ghost use Rattle.server_run.specs.Delivery.{given_at};
ghost use Rattle.server_run.specs.Done.{Keeps};
ghost use Rattle.server_acceptor.specs.Accepting.{AsksFrom, AsksInTurn, EndsByFault, GaveOrSkipped, HasHalted, HasSettled, IsAccepting, IsAskedOut, IsBackedOff, LeavesStops, MayAsk, Proceeds, is_failed, refused};
ghost use Rattle.server_acceptor.specs.Acceptors.{all_ready, core_of, events_of, first_of, listeners_of, out_of, places_of, workers_of};
ghost use Rattle.server_acceptor.specs.Asking.{AskDoes, ComesTo, MakesRoom};
ghost use Rattle.server_acceptor.specs.Listening.{NeverFall};
ghost use Rattle.server_acceptor.specs.declared.step.Step.TheVariants.{On, Settled, Halted, WorkerEnded};

use crate::acceptor::Acceptor;
use crate::asked::Asked;
use crate::step::Step;
use server_core::Event;
use server_run::{Done, Listener};
use service_core::Link;

// How often a listener is asked in a turn, at most.
const MOST_ASKED: usize = 256;

// For how many milliseconds a listener that failed is not asked.
const BACKOFF: u64 = 500;

impl<L: Link> Acceptor<L> {
    // Makes room for the entries of all connections that are at workers, and of one more. False says that there is no room for it, or
    // for its events.
    fn has_room<Do: Done<L>>(&mut self, done: &mut Do) -> bool
        requires spare { out_of self.old ≤ Do.spare done.old }
        requires may { MayAsk self.old }
        ensures makes { MakesRoom self.old self.new }
        ensures keeps { Keeps Do.taken Do.count Do.served done.old done.new }
        ensures may { MayAsk self.new }
        ensures spare { out_of self.new ≤ Do.spare done.new }
        ensures room { result ≡ true → out_of self.new + 1 ≤ Do.spare done.new }
        ensures events { result ≡ true → length (events_of self.new) + 2 ≤ 8 * workers_of self.new + 600 }
        ensures halted { result ≡ false → HasHalted self.new }
    {
        if self.is_short() {
            return false;
        }
        if done.make_room(self.out + 1).is_err() {
            self.lacks_room = true;
            return false;
        }
        true
    }

    // Asks a listener once, where nothing waits.
    fn ask_listener<Li: Listener<Link = L>, Do: Done<L>>(
        &mut self,
        t: usize,
        listeners: &mut Vec<Li>,
        now: u64,
    ) -> Asked
        requires as_many { length listeners.old.items ≡ listeners_of self.old }
        requires given { (t : ℕ) → slice_index_or (places_of self.old) t 0 ≤ given_at Li.given listeners.old.items t }
        requires opened { is_open (core_of self.old) t ≡ true }
        requires ready { all_ready self.old ≡ true }
        requires accepts { IsAccepting (core_of self.old) }
        requires may { MayAsk self.old }
        requires events { length (events_of self.old) + 2 ≤ 8 * workers_of self.old + 600 }
        ensures given { (t : ℕ) → slice_index_or (places_of self.new) t 0 ≤ given_at Li.given listeners.new.items t }
        ensures does { (done : Do) → AskDoes Li.given Li.left Li.rest L.identity Li.ended Li.faults Do.taken Do.count Do.served listeners.old.items listeners.new.items self.old self.new t done }
        ensures counts { NeverFall Li.waits Li.skips listeners.old.items listeners.new.items t }
        ensures comes { ComesTo Li.given Li.waits Li.skips listeners.old.items listeners.new.items self.old self.new t now result }
    {
        self.ask(t, listeners, now)
    }

    // Asks a listener once, and puts what it gives on a ring.
    fn ask_once<Li: Listener<Link = L>, Do: Done<L>>(
        &mut self,
        t: usize,
        listeners: &mut Vec<Li>,
        now: u64,
        done: &mut Do,
    ) -> Step
        requires as_many { length listeners.old.items ≡ listeners_of self.old }
        requires given { (t : ℕ) → slice_index_or (places_of self.old) t 0 ≤ given_at Li.given listeners.old.items t }
        requires spare { out_of self.old ≤ Do.spare done.old }
        requires opened { is_open (core_of self.old) t ≡ true }
        requires ready { all_ready self.old ≡ true }
        requires accepts { IsAccepting (core_of self.old) }
        requires may { MayAsk self.old }
        ensures given { (t : ℕ) → slice_index_or (places_of self.new) t 0 ≤ given_at Li.given listeners.new.items t }
        ensures spare { out_of self.new ≤ Do.spare done.new }
        ensures proceeds { Proceeds Li.given Li.left Li.rest L.identity Li.ended Li.faults Do.taken Do.count Do.served listeners.old.items listeners.new.items self.old self.new done.old done.new }
        ensures asks { AsksFrom listeners.old.items listeners.new.items self.old self.new t (t + 1) }
        ensures counts { NeverFall Li.waits Li.skips listeners.old.items listeners.new.items t }
        ensures refusals { is_some (refused (Some []) (events_of self.new)) ≡ true }
        ensures on { result ≡ On → MayAsk self.new × (is_open (core_of self.new) t ≡ true)
            × (count_by (is_failed t) (events_of self.new) ≡ count_by (is_failed t) (events_of self.old)) × GaveOrSkipped Li.given Li.skips listeners.old.items listeners.new.items t }
        ensures settled { result ≡ Settled → MayAsk self.new × HasSettled Li.waits listeners.old.items listeners.new.items self.new now t }
        ensures halted { result ≡ Halted → HasHalted self.new }
        ensures ended { (w : ℕ) → result ≡ WorkerEnded w → (w < workers_of self.new) × EndsByFault self.old self.new w }
    {
        if !self.has_room(done) {
            return Step::Halted;
        }
        match self.ask_listener::<Li, Do>(t, listeners, now) {
            Asked::Got => self.place_one::<Li, Do>(done),
            Asked::Skipped => Step::On,
            Asked::NotYet | Asked::Failed | Asked::Ended => Step::Settled,
        }
    }

    // Whether a listener failed less than 500 ms ago.
    fn is_backed_off(&self, t: usize, now: u64) -> bool
        requires inside { t < listeners_of self.now }
        ensures yes { result ≡ true → IsBackedOff self.now now t }
        ensures no { result ≡ false → IsBackedOff self.now now t → ⊥ }
    {
        match self.failed[t] {
            Some(failed) => now.saturating_sub(failed) < BACKOFF,
            None => false,
        }
    }

    // Asks a listener until it has nothing more, at most 256 times.
    fn ask_out<Li: Listener<Link = L>, Do: Done<L>>(
        &mut self,
        t: usize,
        listeners: &mut Vec<Li>,
        now: u64,
        done: &mut Do,
    ) -> Step
        requires inside { t < listeners_of self.old }
        requires as_many { length listeners.old.items ≡ listeners_of self.old }
        requires given { (t : ℕ) → slice_index_or (places_of self.old) t 0 ≤ given_at Li.given listeners.old.items t }
        requires spare { out_of self.old ≤ Do.spare done.old }
        requires ready { all_ready self.old ≡ true }
        requires accepts { IsAccepting (core_of self.old) }
        requires may { MayAsk self.old }
        ensures given { (t : ℕ) → slice_index_or (places_of self.new) t 0 ≤ given_at Li.given listeners.new.items t }
        ensures spare { out_of self.new ≤ Do.spare done.new }
        ensures proceeds { Proceeds Li.given Li.left Li.rest L.identity Li.ended Li.faults Do.taken Do.count Do.served listeners.old.items listeners.new.items self.old self.new done.old done.new }
        ensures asks { AsksFrom listeners.old.items listeners.new.items self.old self.new t (t + 1) }
        ensures rests { IsBackedOff self.old now t → listeners.new ≡ listeners.old }
        ensures refusals { is_some (refused (Some []) (events_of self.new)) ≡ true }
        ensures on { result ≡ On → ⊥ }
        ensures settled { result ≡ Settled → MayAsk self.new
            × IsAskedOut Li.given Li.waits Li.skips listeners.old.items listeners.new.items self.new now t }
        ensures halted { result ≡ Halted → HasHalted self.new }
        ensures ended { (w : ℕ) → result ≡ WorkerEnded w → (w < workers_of self.new) × EndsByFault self.old self.new w }
    {
        if self.is_backed_off(t, now) || !self.core.allows(&Event::ListenerEnded(t)) {
            return Step::Settled;
        }
        for k in 0..MOST_ASKED {
            match self.ask_once(t, listeners, now, done) {
                Step::On => {}
                step => return step,
            }
        }
        Step::Settled
    }

    // Asks the listeners from one token on to another, each in its turn.
    fn ask_from<Li: Listener<Link = L>, Do: Done<L>>(
        &mut self,
        from: usize,
        to: usize,
        listeners: &mut Vec<Li>,
        now: u64,
        done: &mut Do,
    ) -> Step
        requires inside { to ≤ listeners_of self.old }
        requires as_many { length listeners.old.items ≡ listeners_of self.old }
        requires given { (t : ℕ) → slice_index_or (places_of self.old) t 0 ≤ given_at Li.given listeners.old.items t }
        requires spare { out_of self.old ≤ Do.spare done.old }
        requires ready { all_ready self.old ≡ true }
        requires accepts { IsAccepting (core_of self.old) }
        requires may { MayAsk self.old }
        ensures given { (t : ℕ) → slice_index_or (places_of self.new) t 0 ≤ given_at Li.given listeners.new.items t }
        ensures spare { out_of self.new ≤ Do.spare done.new }
        ensures proceeds { Proceeds Li.given Li.left Li.rest L.identity Li.ended Li.faults Do.taken Do.count Do.served listeners.old.items listeners.new.items self.old self.new done.old done.new }
        ensures asks { AsksFrom listeners.old.items listeners.new.items self.old self.new from to }
        ensures rests { (t : ℕ) → IsBackedOff self.old now t → slice_get listeners.new.items t ≡ slice_get listeners.old.items t }
        ensures order { (t u : ℕ) → from ≤ t → t < u → u < to → (slice_get listeners.new.items u ≡ slice_get listeners.old.items u)
            ⊎ IsAskedOut Li.given Li.waits Li.skips listeners.old.items listeners.new.items self.new now t }
        ensures refusals { is_some (refused (Some []) (events_of self.new)) ≡ true }
        ensures on { result ≡ On → ⊥ }
        ensures settled { result ≡ Settled → MayAsk self.new
            × ((t : ℕ) → from ≤ t → t < to → IsAskedOut Li.given Li.waits Li.skips listeners.old.items listeners.new.items self.new now t) }
        ensures halted { result ≡ Halted → HasHalted self.new }
        ensures ended { (w : ℕ) → result ≡ WorkerEnded w → (w < workers_of self.new) × EndsByFault self.old self.new w }
    {
        for t in from..to {
            match self.ask_out(t, listeners, now, done) {
                Step::Settled => {}
                step => return step,
            }
        }
        Step::Settled
    }

    // Asks all listeners, each in its turn, from the first one on and round.
    pub(crate) fn ask_all<Li: Listener<Link = L>, Do: Done<L>>(
        &mut self,
        listeners: &mut Vec<Li>,
        now: u64,
        done: &mut Do,
    ) -> Step
        requires as_many { length listeners.old.items ≡ listeners_of self.old }
        requires given { (t : ℕ) → slice_index_or (places_of self.old) t 0 ≤ given_at Li.given listeners.old.items t }
        requires spare { out_of self.old ≤ Do.spare done.old }
        requires ready { all_ready self.old ≡ true }
        requires accepts { IsAccepting (core_of self.old) }
        requires may { MayAsk self.old }
        ensures given { (t : ℕ) → slice_index_or (places_of self.new) t 0 ≤ given_at Li.given listeners.new.items t }
        ensures spare { out_of self.new ≤ Do.spare done.new }
        ensures proceeds { Proceeds Li.given Li.left Li.rest L.identity Li.ended Li.faults Do.taken Do.count Do.served listeners.old.items listeners.new.items self.old self.new done.old done.new }
        ensures first { first_of self.new ≡ first_of self.old }
        ensures once { (t : ℕ) → count_by (is_failed t) (events_of self.new) ≤ count_by (is_failed t) (events_of self.old) + 1 }
        ensures in_turn { AsksInTurn Li.given Li.waits Li.skips listeners.old.items listeners.new.items self.old self.new now }
        ensures leaves { LeavesStops self.old self.new }
        ensures refusals { is_some (refused (Some []) (events_of self.new)) ≡ true }
        ensures on { result ≡ On → ⊥ }
        ensures settled { result ≡ Settled → MayAsk self.new
            × ((t : ℕ) → t < listeners_of self.new → IsAskedOut Li.given Li.waits Li.skips listeners.old.items listeners.new.items self.new now t) }
        ensures halted { result ≡ Halted → HasHalted self.new }
        ensures ended { (w : ℕ) → result ≡ WorkerEnded w → (w < workers_of self.new) × EndsByFault self.old self.new w }
    {
        match self.ask_from(self.first, listeners.len(), listeners, now, done) {
            Step::Settled => self.ask_from(0, self.first, listeners, now, done),
            step => step,
        }
    }
}
