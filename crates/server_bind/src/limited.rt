ghost use Rattle.std.specs.Prelude.{◌≡◌, ◌<◌, ◌^◌, ◌-◌, if◌then◌else◌, false, option_map, take};
ghost use Rattle.server_bind.specs.Limiting.{nothing_left, until};

use server_run::{Accepted, Listener};

/// A listener that ends after so many connections, or where the one behind it does (as `std::io::Take` of bytes).
#[derive(Debug, Drop)]
pub struct Limited<Li> {
    listener: Li,
    /// How many more it gives at the most.
    remaining: u64,
    ended: bool,
    ghost few: { remaining < 2 ^ 48 },
}

impl<Li: Listener> Limited<Li> {
    ghost use Rattle.server_bind.specs.Limits.{behind, remaining_of};

    /// The connections of the listener that come from now on, up to this number.
    pub fn new(listener: Li, limit: u64) -> Limited<Li>
        requires { limit < 2 ^ 48 }
        ensures behind { behind result ≡ listener }
        ensures remaining { remaining_of result ≡ limit }
        ensures ended { ⟦<Limited<Li> as Listener>⟧.ended result ≡ false }
    {
        Limited {
            listener,
            remaining: limit,
            ended: false,
        }
    }

    /// The listener behind it.
    pub fn into_inner(self) -> Li
        ensures { result ≡ behind self }
    {
        self.listener
    }
}

impl<Li: Listener> Listener for Limited<Li> {
    type Link = Li::Link;

    ghost left = { λ l. option_map (take (if l.ended then 0 else l.remaining)) (Li.left l.listener) };

    ghost rest = { λ l. option_map (until l.remaining) (Li.rest l.listener) };

    // It counts as if all had been given before that it may not give, so that no count shows more than the limit.
    ghost given = { λ l. 2 ^ 48 - 1 - l.remaining };

    ghost ended = { λ l. l.ended };

    ghost waits = { λ l. Li.waits l.listener };

    ghost skips = { λ l. Li.skips l.listener };

    ghost faults = { λ l. Li.faults l.listener };

    fn accept(&mut self) -> Accepted<Li::Link> {
        if self.ended || self.remaining == 0 {
            self.ended = true;
            return Accepted::Ended;
        }
        match self.listener.accept() {
            Accepted::Got(link) => {
                self.remaining -= 1;
                Accepted::Got(link)
            }
            Accepted::NotYet => Accepted::NotYet,
            Accepted::Skipped => Accepted::Skipped,
            Accepted::Failed => Accepted::Failed,
            Accepted::Ended => {
                self.ended = true;
                Accepted::Ended
            }
        }
    }

    ghost at_end = { λ l h. nothing_left l.ended l.remaining (Li.left l.listener) h };
}
