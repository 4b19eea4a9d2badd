//! Services that err at a readiness.
ghost use Rattle.std.specs.Prelude.{◌≡◌, ⊤, Some};
ghost use Rattle.std.proofs.Common.{rules};
ghost use Rattle.serve_stage.specs.Ending.{EndsOf};

use crate::awaited::Awaited;
use crate::draws::Draws;
use crate::errs::Errs;
use crate::serving::Serving;
use crate::tally::Tally;
use futures::task::{Context, Poll};
use service_core::{Ended, Link, Service};
use std::cell::Cell;

/// Ends each connection, once services began with so many, and errs so.
#[derive(Drop)]
pub(crate) struct Faulty {
    pub(crate) errs: Errs,
    pub(crate) draws: Draws,
    /// How many connections it began with.
    pub(crate) calls: Cell<u64>,
    /// It was ready once.
    pub(crate) was_ready: Cell<bool>,
    pub(crate) tally: Tally,
    /// A connection ends once services began with so many.
    pub(crate) until: u64,
}

impl Faulty {
    // Whether it errs at this readiness.
    fn has_erred(&self) -> bool {
        let calls = self.calls.get();
        match self.errs {
            Errs::Never => false,
            Errs::AfterCalls(count) => calls >= count,
            Errs::AtEnd => self.was_ready.replace(true),
            Errs::OneIn(count) => calls > 0 && self.draws.is_one_in(count),
        }
    }

    // What its connections wait for.
    fn awaited(&self) -> Option<Awaited> {
        if self.until == 0 {
            return None;
        }
        match self.tally.share() {
            Ok(tally) => Some(Awaited::new(tally, self.until)),
            Err(_) => None,
        }
    }

    // Counts a call.
    fn count(&self) {
        self.calls.set(self.calls.get().saturating_add(1));
        self.tally.count_begun();
    }
}

impl<L: Link> Service<L> for Faulty {
    type Response = Ended<L>;

    type Error = ();

    type Future = Serving<L>;

    ghost may = { λ _ link. EndsOf L.Link link };

    ghost may_ready = { λ _ _. ⊤ };

    ghost may_begin = { λ _ link f. f.link ≡ Some link };

    ghost begun_gives = { Prim.search rules };

    fn poll_ready(&self, _cx: &mut Context<'_>) -> Poll<Result<(), ()>> {
        if self.has_erred() {
            return Poll::Ready(Err(()));
        }
        Poll::Ready(Ok(()))
    }

    fn call(&self, req: L) -> Serving<L> {
        self.count();
        Serving {
            link: Some(req),
            awaited: self.awaited(),
        }
    }
}
