//! How the acceptor takes back what the workers hand it.
ghost use Rattle.std.specs.Prelude.{◌≡◌, ◌≢◌, ◌+◌, ◌-◌, ◌*◌, ◌≤◌, ◌<◌, ℕ, true, length, vec_len, sum, IfSome, IsTrue, IsFalse, slice_get, slice_index, slice_set};
ghost use Rattle.rtrb.specs.Ring.{known_items};
ghost use Rattle.server_core.specs.Core.{held, in_order};
ghost use Rattle.server_acceptor.specs.Accepting.{EndsByFault, HasTold};
ghost use Rattle.server_acceptor.specs.Handing.{known_at, Hands, Lowers, MayTake};
ghost use Rattle.server_acceptor.specs.Logging.{Logs};
ghost use Rattle.server_acceptor.specs.Placing.{Stays};

use crate::acceptor::Acceptor;
use crate::logging::log;
use server_core::Event;
use server_jobs::Note;
use server_run::Done;
use service_core::Link;

impl<L: Link> Acceptor<L> {
    // Whether a worker is in order, and has as many connections as it may have.
    fn is_full(&self, w: usize) -> bool
        requires number { w < length self.now.core.out }
        ensures yes { IsTrue result → (in_order self.now.core.order w ≡ true) × (slice_index self.now.core.out w ≡ self.now.limit) }
        ensures no { IsFalse result → in_order self.now.core.order w ≡ true → slice_index self.now.core.out w ≢ self.now.limit }
    {
        if self.core.out(w) != self.limit {
            return false;
        }
        self.core.allows(&Event::Faulted(w))
    }

    // One connection is out less at a worker, which is free then, if it is in order.
    fn lower(&mut self, w: usize)
        requires number { w < length self.old.core.out }
        requires out { 0 < slice_index self.old.core.out w }
        requires room { vec_len self.old.events + 2 ≤ 8 * length self.old.core.out + 600 }
        ensures lowers { Lowers self.old self.new w }
        ensures room { vec_len self.new.events ≤ vec_len self.old.events + 2 }
        ensures some { 0 < self.new.serial }
        ensures out { self.new.core.out ≡ slice_set self.old.core.out w (slice_index self.old.core.out w - 1) }
        ensures ended { self.new.core.ended ≡ self.old.core.ended }
        ensures failures { self.new.core.failures ≡ self.old.core.failures }
        ensures core_waiting { self.new.core.waiting ≡ self.old.core.waiting }
        ensures order { self.new.core.order ≡ self.old.core.order }
        ensures paused { self.new.core.paused ≡ self.old.core.paused }
        ensures stopping { self.new.core.stopping ≡ self.old.core.stopping }
        ensures parcels { self.new.parcels ≡ self.old.parcels }
        ensures notes { self.new.notes.items ≡ self.old.notes.items }
        ensures waiting { self.new.waiting ≡ self.old.waiting }
        ensures stays { Stays self.old self.new }
    {
        let was_full = self.is_full(w);
        self.out -= 1;
        log(&mut self.core, &mut self.events, Event::Back(w));
        if was_full {
            log(&mut self.core, &mut self.events, Event::Notice(w));
        }
    }

    // Takes the next note of a worker. False says that the worker ended by a fault.
    pub(crate) fn take_note<Do: Done<L>>(&mut self, w: usize, done: &mut Do) -> bool
        requires number { w < length self.old.core.out }
        requires may { IfSome (slice_get self.old.notes.items w) (λ c. MayTake (slice_index self.old.core.out w) self.old.core.stopping (known_items c)) }
        requires room { vec_len self.old.events + 2 ≤ 8 * length self.old.core.out + 600 }
        requires spare { sum self.old.core.out + held self.old.core.waiting ≤ Do.spare done.old }
        ensures logs { Logs self.old.core self.new.core self.old.events.items self.new.events.items }
        ensures room { vec_len self.new.events ≤ vec_len self.old.events + 2 }
        ensures spare { sum self.new.core.out + held self.new.core.waiting ≤ Do.spare done.new }
        ensures hands { Hands L.identity Do.taken Do.count Do.served self.old self.new done.old done.new }
        ensures fewer { known_at self.new.notes.items w < known_at self.old.notes.items w }
        ensures others { (v : ℕ) → v ≢ w → HasTold self.old v → HasTold self.new v }
        ensures faulted { IsFalse result → EndsByFault self.old self.new w }
    {
        match self.notes[w].pop_known() {
            Note::Ready => {
                self.ready[w] = true;
                true
            }
            Note::Back(entry) => {
                self.lower(w);
                done.take(entry);
                true
            }
            Note::Faulted => false,
        }
    }
}
