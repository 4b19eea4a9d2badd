ghost use Rattle.std.specs.Prelude.{◌≡◌, ◌≤◌, ℕ};

/// What tells the time.
pub trait Clock {
    // Its last answer.
    ghost told: { Self → ℕ };

    /// The time in milliseconds, never below the last answer.
    fn now(&mut self) -> u64
        ensures answer { told self.new ≡ result }
        ensures onward { told self.old ≤ result };
}
