//! A listener in memory.
ghost use Rattle.std.specs.Prelude.{◌≤◌, ◌<◌, ◌+◌, ◌^◌, None};

use crate::asking_link::AskingLink;
use server_jobs::Clock;
use server_run::{Accepted, Listener};

/// Gives so many connections as it is asked. Then nothing comes for a time, and it ends.
#[derive(Drop)]
pub struct Crowd<C> {
    rest: u32,
    requests: u32,
    idle: u64,
    clock: C,
    given: u64,
    waits: u64,
    ended: bool,
    ghost few: { given + rest < 2 ^ 32 },
}

impl<C> Crowd<C> {
    /// Connections that each send so many requests, and then nothing until the clock passes so many milliseconds.
    pub fn new(connections: u32, requests: u32, idle: u64, clock: C) -> Crowd<C> {
        Crowd {
            rest: connections,
            requests,
            idle,
            clock,
            given: 0,
            waits: 0,
            ended: false,
        }
    }
}

impl<C: Clock + Drop> Listener for Crowd<C> {
    type Link = AskingLink;

    ghost left = { λ _. None };

    ghost given = { λ crowd. crowd.given };

    ghost ended = { λ crowd. crowd.ended };

    ghost waits = { λ crowd. crowd.waits };

    ghost skips = { λ _. 0 };

    ghost faults = { λ _. 0 };

    fn accept(&mut self) -> Accepted<AskingLink> {
        if self.ended {
            return Accepted::Ended;
        }
        if self.rest > 0 {
            self.rest -= 1;
            self.given += 1;
            return Accepted::Got(AskingLink::new(self.requests));
        }
        if self.idle > 0 && self.clock.now() < self.idle {
            self.waits = self.waits.saturating_add(1);
            return Accepted::NotYet;
        }
        self.ended = true;
        Accepted::Ended
    }

    ghost at_end = { λ _ _. tt };
}
