ghost use Rattle.std.specs.Prelude.{◌≡◌, ◌≤◌, ◌+◌, ◌-◌, ◌^◌, min};
ghost use Rattle.server_jobs.specs.Jobs.{step_of};

use crate::clock::Clock;

/// A clock that goes on by the same step at each call, up to the greatest `u64`.
#[derive(Clone, Copy, Debug)]
pub struct StepClock {
    now: u64,
    step: u64,
}

impl StepClock {
    /// A clock that stands at `start`. Its first answer is a step later.
    pub fn new(start: u64, step: u64) -> StepClock
        ensures start { ⟦<StepClock as Clock>⟧.told result ≡ start }
        ensures step { step_of result ≡ step }
    {
        StepClock { now: start, step }
    }
}

impl Clock for StepClock {
    ghost told = { λ clock. clock.now };

    fn now(&mut self) -> u64
        ensures answer { ⟦<StepClock as Clock>⟧.told self.new ≡ result }
        ensures onward { ⟦<StepClock as Clock>⟧.told self.old ≤ result }
        ensures steps { result ≡ min (⟦<StepClock as Clock>⟧.told self.old + step_of self.old) (2 ^ 64 - 1) }
        ensures same { step_of self.new ≡ step_of self.old }
    {
        self.now = self.now.saturating_add(self.step);
        self.now
    }
}
