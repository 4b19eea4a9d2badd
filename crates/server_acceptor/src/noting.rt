//! How the acceptor takes the notes of a worker, one after the other.
ghost use Rattle.std.specs.Prelude.{◌≡◌, ◌≢◌, ◌⊎◌, ◌+◌, ◌*◌, ◌≤◌, ◌<◌, ℕ, [], length, vec_len, sum, IfSome, IsTrue, IsFalse, true, slice_get, slice_index, None, Some};
ghost use Rattle.rtrb.specs.Ring.{known_items};
ghost use Rattle.server_acceptor.specs.Accepting.{EndsByFault, HasTaken, HasTold, IsShort, refused};
ghost use Rattle.server_acceptor.specs.Acceptors.{events_of, out_of, workers_of};
ghost use Rattle.server_acceptor.specs.Handing.{Hands, MayTake};
ghost use Rattle.server_acceptor.specs.Notes.{AreLeft};

use crate::acceptor::Acceptor;
use server_jobs::Note;
use server_run::Done;
use service_core::Link;

impl<L: Link> Acceptor<L> {
    // Whether a note of the worker is known that may be taken.
    fn may_take(&self, w: usize) -> bool
        requires number { w < length self.now.core.out }
        ensures yes { IsTrue result → IfSome (slice_get self.now.notes.items w) (λ c. MayTake (slice_index self.now.core.out w) self.now.core.stopping (known_items c)) }
        ensures no { IsFalse result → IfSome (slice_get self.now.notes.items w) (λ c. AreLeft (slice_index self.now.core.out w) self.now.core.stopping (known_items c))
            ⊎ (8 * length self.now.core.out + 600 < vec_len self.now.events + 2) }
        ensures room { IsTrue result → vec_len self.now.events + 2 ≤ 8 * length self.now.core.out + 600 }
    {
        if self.event_room() < 2 {
            return false;
        }
        let notes = &self.notes[w];
        if notes.cached_slots() == 0 {
            return false;
        }
        match notes.peek_known() {
            Note::Back(entry) => {
                self.core.out(w) > 0 && (self.core.stopping() || !entry.outcome.is_stopped())
            }
            Note::Ready | Note::Faulted => true,
        }
    }

    // Looks into the ring of a worker.
    fn look<Do: Done<L>>(&mut self, w: usize, done: &mut Do)
        requires number { w < length self.old.core.out }
        ensures hands { Hands L.identity Do.taken Do.count Do.served self.old self.new done.old done.new }
        ensures core { self.new.core ≡ self.old.core }
        ensures events { self.new.events ≡ self.old.events }
        ensures done { done.new ≡ done.old }
        ensures others { (v : ℕ) → v ≢ w → HasTold self.old v → HasTold self.new v }
    {
        self.notes[w].slots();
    }

    // Takes the notes of a worker that are known, as far as connections are out at it, and none that was stopped before a stop. False says that it ended by a fault.
    pub(crate) fn take_known<Do: Done<L>>(&mut self, w: usize, done: &mut Do) -> bool
        requires number { w < workers_of self.old }
        requires spare { out_of self.old ≤ Do.spare done.old }
        ensures spare { out_of self.new ≤ Do.spare done.new }
        ensures hands { Hands L.identity Do.taken Do.count Do.served self.old self.new done.old done.new }
        ensures told { IsTrue result → HasTold self.new w ⊎ IsShort self.new }
        ensures others { (v : ℕ) → v ≢ w → HasTold self.old v → HasTold self.new v }
        ensures refused { refused (Some []) (events_of self.new) ≡ refused (Some []) (events_of self.old) }
        ensures faulted { IsFalse result → EndsByFault self.old self.new w }
    {
        while self.may_take(w) {
            if !self.take_note(w, done) {
                return false;
            }
        }
        true
    }

    // Looks into the ring of each worker, and takes the notes that are there. Some worker ended by a fault where it says so.
    pub(crate) fn take_notes<Do: Done<L>>(&mut self, done: &mut Do) -> Option<usize>
        requires spare { out_of self.old ≤ Do.spare done.old }
        ensures spare { out_of self.new ≤ Do.spare done.new }
        ensures hands { Hands L.identity Do.taken Do.count Do.served self.old self.new done.old done.new }
        ensures told { result ≡ None → HasTaken self.new }
        ensures refused { refused (Some []) (events_of self.new) ≡ refused (Some []) (events_of self.old) }
        ensures faulted { IfSome result (λ w. (w < workers_of self.new) × EndsByFault self.old self.new w) }
    {
        for w in 0..self.notes.len() {
            self.look(w, done);
            if !self.take_known(w, done) {
                return Some(w);
            }
        }
        None
    }
}
