//! The factory of the services of a run.
ghost use Rattle.std.specs.Prelude.{◌≡◌, ⊤};

use crate::draws::Draws;
use crate::errs::Errs;
use crate::maker::Maker;
use crate::tally::Tally;
use server_run::ServerServiceFactory;
use service_core::Link;
use std::alloc::{AllocError, Global};
use std::cell::Cell;

/// Which services of a run err.
#[derive(Clone, Copy)]
pub(crate) enum Rule {
    /// Those that the first worker makes before it is replaced, once they were called so often.
    First {
        /// How often they are called.
        calls: u64,
    },
    /// Each at its second readiness. None is made in its place, which is told once the listener has ended.
    AtEnd,
    /// Each at one readiness in so many, by the draws of a seed.
    Random {
        /// The seed.
        seed: u64,
        /// How many readinesses.
        one_in: u64,
    },
}

/// Makes services of which some err.
#[derive(Drop)]
pub(crate) struct Faults {
    rule: Rule,
    // Each worker has a copy of its own. The original has no number.
    number: Option<u64>,
    // So many jobs of its worker made services.
    jobs: Cell<u64>,
    tally: Tally,
    until: u64,
}

impl Faults {
    /// Their connections end once services began with so many, and count in that tally.
    pub(crate) fn new(rule: Rule, tally: Tally, until: u64) -> Faults {
        Faults {
            rule,
            number: None,
            jobs: Cell::new(0),
            tally,
            until,
        }
    }

    // Where the services err that the worker makes now.
    fn errs(&self) -> Errs {
        match self.rule {
            Rule::First { calls } if self.number == Some(0) && self.jobs.get() == 1 => {
                Errs::AfterCalls(calls)
            }
            Rule::First { calls: _ } => Errs::Never,
            Rule::AtEnd => Errs::AtEnd,
            Rule::Random { seed: _, one_in } => Errs::OneIn(one_in),
        }
    }

    // The draws of a token's services, which are others for each job of each worker.
    fn draws(&self, token: usize) -> Draws {
        let seed = match self.rule {
            Rule::First { calls: _ } | Rule::AtEnd => 0,
            Rule::Random { seed, one_in: _ } => seed,
        };
        let of_worker = Draws::new(seed, self.number.unwrap_or(u64::MAX));
        let of_job = Draws::new(of_worker.next(), self.jobs.get());
        Draws::new(of_job.next(), token as u64)
    }
}

impl Clone for Faults {
    ghost is_clone = { λ _ _. ⊤ };

    /// The same for the next worker.
    fn clone(&self) -> Result<Faults, AllocError> {
        Ok(Faults {
            rule: self.rule,
            number: Some(self.tally.count_copy()),
            jobs: Cell::new(0),
            tally: self.tally.share()?,
            until: self.until,
        })
    }
}

impl<L: Link> ServerServiceFactory<L> for Faults {
    type Factory = Maker;

    ghost may_serve = { λ _ _ link ended. L.identity ended.link ≡ L.identity link };

    ghost may_leave = { λ _ _ link back. L.identity back ≡ L.identity link };

    ghost may_ready = { λ _ _ _. ⊤ };

    ghost may_init = { λ _ _ _. ⊤ };

    ghost may_make = { λ _ _. ⊤ };

    fn create(&self, _alloc: Global, token: usize) -> Result<Maker, AllocError> {
        // A job makes that of the first listener first.
        if token == 0 {
            self.jobs.set(self.jobs.get().saturating_add(1));
        }
        Ok(Maker {
            errs: self.errs(),
            draws: self.draws(token),
            has_made: Cell::new(false),
            tally: self.tally.share()?,
            until: self.until,
        })
    }

    ghost same_served = { λ _ _ _ _ same. same };

    ghost same_left = { λ _ _ _ _ same. same };
}
