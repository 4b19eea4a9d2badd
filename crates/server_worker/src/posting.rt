//! How a worker hands back what it is done with.
ghost use Rattle.std.specs.Prelude.{◌≡◌, ◌+◌, ◌<◌, ◌≤◌, ◌⊎◌, [], vec_len, IsTrue, IsFalse};
ghost use Rattle.std.specs.VecDeque.{deque_len};
ghost use Rattle.rtrb.specs.Ring.{known_free};
ghost use Rattle.server_worker.specs.Posted.{Posts};

use crate::connections::Connections;
use service_core::Link;

impl<L: Link, Fut: Drop> Connections<L, Fut> {
    // How many connections it holds, queued and live.
    pub(crate) fn total(&self) -> u64
        ensures { result ≡ vec_len self.now.live + (deque_len self.now.queue + vec_len self.now.strays) }
    {
        let waiting = self.queue.len() + self.strays.len();
        (self.live.len() + waiting) as u64
    }

    // Hands back the first of what is kept. False where there is none, or the ring has no place but the one that is kept for the note
    // of a fault.
    fn post_one(&mut self) -> bool
        ensures posts { Posts self.old self.new }
        ensures fewer { IsTrue result → deque_len self.new.owed + 1 ≡ deque_len self.old.owed }
        ensures rest { IsFalse result → (self.new.owed.items ≡ []) ⊎ (known_free self.new.notes ≤ 1) }
    {
        if self.notes.cached_slots() < 2 && self.notes.slots() < 2 {
            return false;
        }
        let Some(note) = self.owed.pop_front() else {
            return false;
        };
        self.notes.push_reserved(note);
        true
    }

    #[tactic(auto, using(crate::proofs::PostSteps::posts_none, crate::proofs::PostSteps::posts_trans))]
    // Hands back what is kept, as far as the ring has places. It tells whether that is something.
    pub(crate) fn post(&mut self) -> bool
        ensures posts { Posts self.old self.new }
        ensures rest { (self.new.owed.items ≡ []) ⊎ (known_free self.new.notes ≤ 1) }
    {
        let before = self.owed.len();
        while self.post_one() {}
        self.owed.len() != before
    }
}
