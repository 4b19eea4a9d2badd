ghost use Rattle.std.specs.Prelude.{◌≡◌};
ghost use Rattle.server_jobs.specs.Jobs.{number_of_seat};

use crate::bell::Bell;
use std::sync::Arc;
use std::thread::Parker;

/// Where a job waits, with its number among the jobs of its spawner.
#[derive(Drop)]
pub struct Seat {
    number: usize,
    pub(crate) pause: Pause,
}

// How a job waits, and how it wakes the thread of its starter.
#[derive(Drop)]
pub(crate) enum Pause {
    // At a parker of its own.
    Park {
        mine: Arc<Parker>,
        starter: Arc<Parker>,
    },
    // In the sleep of its host, which hands on that the bell was rung.
    Host(Arc<Bell>),
}

impl Seat {
    /// The seat with this number, of a job that waits at a parker. The thread of its starter waits at the other.
    pub fn new(number: usize, mine: Arc<Parker>, starter: Arc<Parker>) -> Seat
        ensures { number_of_seat result ≡ number }
    {
        Seat {
            number,
            pause: Pause::Park { mine, starter },
        }
    }

    /// The seat with this number, of a job that waits in the sleep of its host. News ends that sleep, and where the bell was rung it
    /// wakes the thread of the starter.
    pub fn of_host(number: usize, bell: Arc<Bell>) -> Seat
        ensures { number_of_seat result ≡ number }
    {
        Seat {
            number,
            pause: Pause::Host(bell),
        }
    }

    /// The number that it was given.
    pub fn number(&self) -> usize
        ensures { result ≡ number_of_seat self.now }
    {
        self.number
    }
}
