ghost use Rattle.std.specs.Prelude.{◌≡◌, IfOk};
ghost use Rattle.server_edge.specs.Counting.{IsFresh};

use crate::thread_spawner::ThreadSpawner;
use server_jobs::{Seat, Spawner};
use server_run::Host;
use std::alloc::{AllocError, Global};

/// Starts jobs as a `ThreadSpawner` does, except for the starts whose numbers are listed, counted from 0. It is for tests.
#[derive(Drop)]
pub struct ScriptSpawner {
    threads: ThreadSpawner,
    refused: Vec<u64>,
    // How many starts were asked for.
    asked: u64,
}

impl ScriptSpawner {
    /// It has started nothing, and is to refuse these starts.
    pub fn new(alloc: Global, refused: Vec<u64>) -> Result<ScriptSpawner, AllocError>
        ensures { IfOk result (IsFresh ⟦<ScriptSpawner as Spawner>⟧.starts ⟦<ScriptSpawner as Spawner>⟧.refusals) }
    {
        Ok(ScriptSpawner {
            threads: ThreadSpawner::new(alloc)?,
            refused,
            asked: 0,
        })
    }
}

impl Spawner for ScriptSpawner {
    ghost starts = { λ spawner. ⟦<ThreadSpawner as Spawner>⟧.starts spawner.threads };

    ghost refusals = { λ spawner. ⟦<ThreadSpawner as Spawner>⟧.refusals spawner.threads };

    /// It is refused where the number is listed, or for want of memory.
    fn seat(&mut self) -> Option<Seat> {
        let number = self.asked;
        self.asked = number.saturating_add(1);
        if self.refused.contains(&number) {
            self.threads.count_refusal();
            return None;
        }
        self.threads.seat()
    }

    fn count_start(&mut self) {
        self.threads.count_start();
    }

    fn count_refusal(&mut self) {
        self.threads.count_refusal();
    }

    fn rest<Ho: Host>(&mut self, rt: &Ho, busy: bool) {
        self.threads.rest(rt, busy);
    }

    fn ring(&mut self, number: usize) {
        self.threads.ring(number);
    }
}
