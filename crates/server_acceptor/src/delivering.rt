//! How the acceptor gives the connection that waits to a worker, and takes what that worker handed back before.
ghost use Rattle.std.specs.Prelude.{◌≡◌, ◌≢◌, ◌⊎◌, ◌+◌, ◌*◌, ◌≤◌, ◌<◌, ℕ, List, [], length, true, false, None, Some, is_some};
ghost use Rattle.server_acceptor.specs.Accepting.{AsksFrom, EndsByFault, HasHalted, HasTaken, IsShort, MayAsk, Proceeds, refused};
ghost use Rattle.server_acceptor.specs.Acceptors.{events_of, out_of, places_of, workers_of};
ghost use Rattle.server_acceptor.specs.declared.step.Step.TheVariants.{On, Settled, Halted, WorkerEnded};

use crate::acceptor::Acceptor;
use crate::placed::Placed;
use crate::step::Step;
use server_run::{Done, Listener};
use service_core::Link;

impl<L: Link> Acceptor<L> {
    // Whether there is not room for the events of one connection more.
    pub(crate) fn is_short(&self) -> bool
        ensures yes { result ≡ true → IsShort self.now }
        ensures no { result ≡ false → length (events_of self.now) + (2 * workers_of self.now + 4) ≤ 8 * workers_of self.now + 600 }
    {
        self.event_room() < 2 * self.parcels.len() + 4
    }

    // Puts the connection that waits on a ring, if there is one and a worker is free, and takes what that worker handed back before.
    pub(crate) fn place_one<Li: Listener<Link = L>, Do: Done<L>>(&mut self, done: &mut Do) -> Step
        requires spare { out_of self.old ≤ Do.spare done.old }
        requires told { HasTaken self.old }
        requires unrefused { refused (Some []) (events_of self.old) ≡ Some [] }
        ensures spare { out_of self.new ≤ Do.spare done.new }
        ensures proceeds { (listeners : List Li) → Proceeds Li.given Li.left Li.rest L.identity Li.ended Li.faults Do.taken Do.count Do.served listeners listeners self.old self.new done.old done.new }
        ensures places { places_of self.new ≡ places_of self.old }
        ensures none_asked { (listeners : List Li) → AsksFrom listeners listeners self.old self.new 0 0 }
        ensures refusals { is_some (refused (Some []) (events_of self.new)) ≡ true }
        ensures on { result ≡ On → MayAsk self.new }
        ensures settled { result ≡ Settled → ⊥ }
        ensures halted { result ≡ Halted → HasHalted self.new }
        ensures ended { (w : ℕ) → result ≡ WorkerEnded w → (w < workers_of self.new) × EndsByFault self.old self.new w }
    {
        if self.is_short() {
            return Step::Halted;
        }
        match self.place() {
            Placed::Nothing => Step::On,
            Placed::Waiting => Step::Halted,
            Placed::Sent(w) => {
                if self.take_known(w, done) {
                    Step::On
                } else {
                    Step::WorkerEnded(w)
                }
            }
        }
    }
}
