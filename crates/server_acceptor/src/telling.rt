//! What an acceptor tells of itself, and its rings at the end.
ghost use Rattle.std.specs.Prelude.{◌≡◌, ◌<◌, is_some};
ghost use Rattle.server_acceptor.specs.Acceptors.{all_ready, core_of, listeners_of, notes_of, parcels_of, retry_limit_of, serial_of, waiting_of};
ghost use Rattle.server_acceptor.specs.States.{IsStateOf};

use crate::acceptor::Acceptor;
use rtrb::{Consumer, Producer};
use server_core::Event;
use server_jobs::{Note, Parcel};
use server_run::ListenerState;
use service_core::Link;

impl<L: Link> Acceptor<L> {
    /// Whether every worker told that its services stand.
    pub fn all_ready(&self) -> bool
        ensures { result ≡ all_ready self.now }
    {
        self.ready.iter().all(|ready| *ready)
    }

    /// How many connections came in all.
    pub fn accepted(&self) -> u64
        ensures { result ≡ serial_of self.now }
    {
        self.serial
    }

    /// Whether a connection waits that no worker could take yet.
    pub fn is_waiting(&self) -> bool
        ensures { result ≡ is_some (waiting_of self.now) }
    {
        self.waiting.is_some()
    }

    /// Whether a stop was taken up.
    pub fn is_stopping(&self) -> bool
        ensures { result ≡ is_some (core_of self.now).stopping }
    {
        self.core.stopping()
    }

    /// What became of a listener so far.
    pub fn listener_state(&self, token: usize) -> ListenerState
        requires { token < listeners_of self.now }
        ensures { IsStateOf (core_of self.now) (retry_limit_of self.now) token result }
    {
        if self.core.allows(&Event::ListenerEnded(token)) {
            return ListenerState::Open;
        }
        let failures = self.core.failures(token);
        if failures == self.retry_limit {
            ListenerState::Faulted { failures }
        } else {
            ListenerState::Ended
        }
    }

    /// Its ends of the rings, by worker.
    pub fn into_rings(self) -> (Vec<Producer<Parcel<L>>>, Vec<Consumer<Note<L>>>)
        ensures { (result.0.items ≡ parcels_of self) × (result.1.items ≡ notes_of self) }
    {
        (self.parcels, self.notes)
    }
}
