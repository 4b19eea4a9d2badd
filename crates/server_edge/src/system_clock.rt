ghost use Rattle.std.specs.Prelude.{◌≡◌};

use server_jobs::Clock;
use std::time::{Clock as TimeSource, Instant};

/// The system's clock: milliseconds since it was first asked.
#[derive(Drop)]
pub struct SystemClock<R> {
    rt: R,
    start: Option<Instant>,
    told: u64,
}

impl<R: TimeSource + Drop> SystemClock<R> {
    /// It stands at 0.
    pub fn new(rt: R) -> SystemClock<R>
        ensures { ⟦<SystemClock<R> as Clock>⟧.told result ≡ 0 }
    {
        SystemClock {
            rt,
            start: None,
            told: 0,
        }
    }
}

impl<R: TimeSource + Drop> Clock for SystemClock<R> {
    ghost told = { λ clock. clock.told };

    /// Where the system tells no time, or an earlier one, it is the last answer.
    fn now(&mut self) -> u64 {
        match self.start {
            None => self.start = Instant::now(&self.rt).ok(),
            Some(start) => {
                if let Ok(passed) = start.elapsed(&self.rt) {
                    let millis = u64::try_from(passed.as_millis()).unwrap_or(u64::MAX);
                    self.told = self.told.max(millis);
                }
            }
        }
        self.told
    }
}
