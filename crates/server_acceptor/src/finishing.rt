//! How the acceptor comes to its end.
ghost use Rattle.std.specs.Prelude.{◌≡◌, ◌<◌, ◌⊎◌, ℕ, List, None, Some, length, sum, is_some, true, false, slice_index_or};
ghost use Rattle.server_acceptor.specs.Accepting.{Finishes, IsClosing, IsDone, IsOver, Proceeds};
ghost use Rattle.server_acceptor.specs.Acceptors.{core_of, parcels_of, stop_of, waiting_of};
ghost use Rattle.server_acceptor.specs.Sending.{IsForced, IsStopped};
ghost use Rattle.server_acceptor.specs.Stopping.{AwaitsStop, ForcesAll, IsDue, LacksStop, StopsOnly};
ghost use Rattle.server_acceptor.specs.declared.accept_turn.AcceptTurn.TheVariants.{Going, WorkerEnded, Finished as IsFinished};

use crate::accept_turn::AcceptTurn;
use crate::acceptor::Acceptor;
use crate::stop::Stop;
use server_core::Event;
use server_run::{Done, End, Listener};
use service_core::Link;

impl<L: Link> Acceptor<L> {
    // Whether every listener has ended.
    fn all_ended(&self) -> bool
        ensures yes { result ≡ true → (t : ℕ) → t < length (core_of self.now).ended → slice_index_or (core_of self.now).ended t false ≡ true }
        ensures no { result ≡ false → ((t : ℕ) → t < length (core_of self.now).ended → slice_index_or (core_of self.now).ended t false ≡ true) → ⊥ }
    {
        for t in 0..self.places.len() {
            if self.core.allows(&Event::ListenerEnded(t)) {
                return false;
            }
        }
        true
    }

    /// Whether nothing is left to do: no more is accepted, no connection waits, and no worker has one.
    pub fn is_done(&self) -> bool
        ensures yes { result ≡ true → IsDone self.now }
        ensures no { result ≡ false → IsDone self.now → ⊥ }
    {
        if self.waiting.is_some() || self.out > 0 {
            return false;
        }
        self.lacks_room || self.all_ended()
    }

    #[tactic(auto, using(crate::proofs::DoesSteps::proceeds_none))]
    // What the turn comes to without a stop.
    fn come_to_end<Li: Listener<Link = L>, Do: Done<L>>(&mut self) -> AcceptTurn
        requires unstopped { stop_of self.old ≡ None }
        ensures proceeds { (listeners : List Li) (done : Do) → Proceeds Li.given Li.left Li.rest L.identity Li.ended Li.faults Do.taken Do.count Do.served listeners listeners self.old self.new done done }
        ensures only { StopsOnly self.old self.new }
        ensures forces { (v : ℕ) → IsForced (parcels_of self.new) v → IsForced (parcels_of self.old) v }
        ensures closes { (v : ℕ) → IsStopped (parcels_of self.new) v → IsStopped (parcels_of self.old) v ⊎ IsDone self.new }
        ensures going { result ≡ Going → IsOver self.new → waiting_of self.new ≡ None → sum (core_of self.new).out ≡ 0 → (w : ℕ) × LacksStop self.new w }
        ensures no_fault { (w : ℕ) → result ≡ WorkerEnded w → ⊥ }
        ensures finished { (e : _) → result ≡ IsFinished e → Finishes self.new e }
    {
        let end = if self.lacks_room {
            End::Memory
        } else if self.all_ended() {
            End::Drained
        } else {
            return AcceptTurn::Going;
        };
        if self.waiting.is_some() || self.out > 0 {
            return AcceptTurn::Going;
        }
        if !self.send_words::<Li, Do>(false) {
            return AcceptTurn::Going;
        }
        AcceptTurn::Finished(end)
    }

    // What the turn comes to after a stop.
    fn come_to_stop<Li: Listener<Link = L>, Do: Done<L>>(
        &mut self,
        stop: Stop,
        now: u64,
    ) -> AcceptTurn
        requires kept { stop_of self.old ≡ Some stop }
        ensures proceeds { (listeners : List Li) (done : Do) → Proceeds Li.given Li.left Li.rest L.identity Li.ended Li.faults Do.taken Do.count Do.served listeners listeners self.old self.new done done }
        ensures only { StopsOnly self.old self.new }
        ensures forces { (v : ℕ) → IsForced (parcels_of self.new) v → IsForced (parcels_of self.old) v ⊎ IsDue self.new now }
        ensures due { ForcesAll self.new now }
        ensures going { result ≡ Going → AwaitsStop self.new now }
        ensures no_fault { (w : ℕ) → result ≡ WorkerEnded w → ⊥ }
        ensures finished { (e : _) → result ≡ IsFinished e → Finishes self.new e }
    {
        let force = self.is_due(stop, now);
        if !self.send_words::<Li, Do>(force) {
            return AcceptTurn::Going;
        }
        let end = End::Stopped {
            graceful: stop.graceful,
        };
        if self.out == 0 {
            return AcceptTurn::Finished(end);
        }
        if self.all_forced() {
            return AcceptTurn::Finished(end);
        }
        AcceptTurn::Going
    }

    // What the turn comes to.
    pub(crate) fn come_to<Li: Listener<Link = L>, Do: Done<L>>(&mut self, now: u64) -> AcceptTurn
        ensures proceeds { (listeners : List Li) (done : Do) → Proceeds Li.given Li.left Li.rest L.identity Li.ended Li.faults Do.taken Do.count Do.served listeners listeners self.old self.new done done }
        ensures only { StopsOnly self.old self.new }
        ensures forces { (v : ℕ) → IsForced (parcels_of self.new) v → IsForced (parcels_of self.old) v ⊎ IsDue self.new now }
        ensures due { ForcesAll self.new now }
        ensures closes { (v : ℕ) → IsStopped (parcels_of self.new) v → IsStopped (parcels_of self.old) v ⊎ IsClosing self.new }
        ensures going { result ≡ Going → (core_of self.new).stopping ≡ None → IsOver self.new → waiting_of self.new ≡ None → sum (core_of self.new).out ≡ 0 → (w : ℕ) × LacksStop self.new w }
        ensures stop { result ≡ Going → is_some (core_of self.new).stopping ≡ true → AwaitsStop self.new now }
        ensures no_fault { (w : ℕ) → result ≡ WorkerEnded w → ⊥ }
        ensures finished { (e : _) → result ≡ IsFinished e → Finishes self.new e }
    {
        match self.stop {
            Some(stop) => self.come_to_stop::<Li, Do>(stop, now),
            None => self.come_to_end::<Li, Do>(),
        }
    }
}
