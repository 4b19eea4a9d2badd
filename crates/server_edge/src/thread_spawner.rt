ghost use Rattle.std.specs.Prelude.{◌≡◌, IfOk};
ghost use Rattle.server_edge.specs.Counting.{IsFresh};

use crate::seats::Seats;
use server_jobs::{Seat, Spawner};
use server_reactor::Reactor;
use server_run::Host;
use std::alloc::{AllocError, Global};
use std::sync::Arc;

/// Starts each job in a thread of its own.
#[derive(Drop)]
pub struct ThreadSpawner {
    seats: Seats,
    starts: u64,
    refusals: u64,
}

impl ThreadSpawner {
    /// It has started nothing. Its threads park.
    pub fn new(alloc: Global) -> Result<ThreadSpawner, AllocError>
        ensures { IfOk result (IsFresh ⟦<ThreadSpawner as Spawner>⟧.starts ⟦<ThreadSpawner as Spawner>⟧.refusals) }
    {
        Ok(ThreadSpawner::at(Seats::new(alloc, None)?))
    }

    /// It has started nothing. Once the reactor has a listener, the threads of jobs wait for sockets, in the sleep of the
    /// `ReactorHost` that the job is started with, and so does the thread of their starter.
    pub fn over(alloc: Global, reactor: Arc<Reactor>) -> Result<ThreadSpawner, AllocError>
        ensures { IfOk result (IsFresh ⟦<ThreadSpawner as Spawner>⟧.starts ⟦<ThreadSpawner as Spawner>⟧.refusals) }
    {
        Ok(ThreadSpawner::at(Seats::new(alloc, Some(reactor))?))
    }

    fn at(seats: Seats) -> ThreadSpawner
        ensures { IsFresh ⟦<ThreadSpawner as Spawner>⟧.starts ⟦<ThreadSpawner as Spawner>⟧.refusals result }
    {
        ThreadSpawner {
            seats,
            starts: 0,
            refusals: 0,
        }
    }
}

impl Spawner for ThreadSpawner {
    ghost starts = { λ spawner. spawner.starts };

    ghost refusals = { λ spawner. spawner.refusals };

    /// It is refused only for want of memory, or of a seat where the reactor has no more.
    fn seat(&mut self) -> Option<Seat> {
        match self.seats.add() {
            Ok(seat) => Some(seat),
            Err(_) => {
                self.refusals = self.refusals.saturating_add(1);
                None
            }
        }
    }

    fn count_start(&mut self) {
        self.starts = self.starts.saturating_add(1);
    }

    fn count_refusal(&mut self) {
        self.refusals = self.refusals.saturating_add(1);
    }

    fn rest<Ho: Host>(&mut self, rt: &Ho, busy: bool) {
        self.seats.rest(rt, busy);
    }

    fn ring(&mut self, number: usize) {
        self.seats.ring(number);
    }
}
