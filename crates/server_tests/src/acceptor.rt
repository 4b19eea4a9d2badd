//! An acceptor that tests ask without knowing more of it.
ghost use Rattle.std.specs.Prelude.{◌≡◌, ◌≤◌, length};

use server_core::{AcceptCore, Availability, Event};

/// An acceptor, and how many workers and listeners it has.
#[derive(Drop)]
pub(crate) struct Acceptor {
    core: AcceptCore,
    workers: usize,
    listeners: usize,
    ghost as_many_workers: { length core.out ≡ workers },
    ghost as_many_listeners: { length core.ended ≡ listeners },
}

impl Acceptor {
    /// A new one of so many workers and listeners.
    pub(crate) fn new(workers: usize, listeners: usize) -> Acceptor
        requires some_workers { 1 ≤ workers }
        requires most_workers { workers ≤ 512 }
        requires some_listeners { 1 ≤ listeners }
        requires most_listeners { listeners ≤ 64 }
    {
        Acceptor {
            core: AcceptCore::new(workers, listeners),
            workers,
            listeners,
        }
    }

    /// Whether the event was allowed; it is carried out then.
    pub(crate) fn happens(&mut self, event: Event) -> bool {
        if self.core.allows(&event) {
            self.core.step(event);
            return true;
        }
        false
    }

    /// Whether each of the events was allowed, up to one that was not.
    pub(crate) fn all_happen(&mut self, events: &[Event]) -> bool {
        for event in events {
            if !self.happens(*event) {
                return false;
            }
        }
        true
    }

    /// Whether a connection waits.
    pub(crate) fn waits(&self) -> bool {
        self.core.waiting()
    }

    /// Whether it is paused, and whether a stop came.
    pub(crate) fn told(&self) -> (bool, bool) {
        (self.core.paused(), self.core.stopping())
    }

    /// How many connections the worker has.
    pub(crate) fn out(&self, worker: usize) -> Option<u64> {
        if worker < self.workers {
            Some(self.core.out(worker))
        } else {
            None
        }
    }

    /// How often the listener failed.
    pub(crate) fn failures(&self, token: usize) -> Option<u64> {
        if token < self.listeners {
            Some(self.core.failures(token))
        } else {
            None
        }
    }

    /// The workers in order.
    pub(crate) fn order(&self) -> &[u16] {
        self.core.order()
    }

    /// The place that is asked first.
    pub(crate) fn next(&self) -> usize {
        self.core.next()
    }

    /// The worker that is picked where these are passed over.
    pub(crate) fn pick(&self, passed: &[usize]) -> Option<usize> {
        self.core.pick(&marks(passed))
    }
}

// The marks of these workers.
fn marks(workers: &[usize]) -> Availability {
    let mut marks = Availability::default();
    for worker in workers {
        if *worker < 512 {
            marks.set_available(*worker, true);
        }
    }
    marks
}
