//! The factory of the services of a token.
ghost use Rattle.std.specs.Prelude.{◌≡◌, ⊤, Some};
ghost use Rattle.std.proofs.Common.{rules};
ghost use Rattle.serve_stage.specs.Ending.{EndsOf};

use crate::draws::Draws;
use crate::errs::Errs;
use crate::faulty::Faulty;
use crate::tally::Tally;
use service_core::{Ended, Link, Ready, ServiceFactory, err, ok};
use std::alloc::AllocError;
use std::cell::Cell;

// So often it looks whether the listener has ended, which takes some seconds. Only where that is never asked are they too few.
const PATIENCE: u32 = 5_000;

/// Makes services that err so, and refuses some in their place.
#[derive(Drop)]
pub(crate) struct Maker {
    pub(crate) errs: Errs,
    pub(crate) draws: Draws,
    /// It made one.
    pub(crate) has_made: Cell<bool>,
    pub(crate) tally: Tally,
    /// A connection ends once services began with so many.
    pub(crate) until: u64,
}

impl Maker {
    // Whether it refuses the next service. The first one it never does.
    fn refuses(&self) -> bool {
        if !self.has_made.replace(true) {
            return false;
        }
        let refuses = match self.errs {
            Errs::Never => false,
            Errs::AfterCalls(_) => true,
            Errs::AtEnd => {
                self.await_end();
                true
            }
            Errs::OneIn(_) => self.draws.is_one_in(2),
        };
        if refuses {
            self.tally.count_refused();
        }
        refuses
    }

    // Waits until the listener has ended.
    fn await_end(&self) {
        self.tally.ask();
        for _ in 0..PATIENCE {
            if self.tally.ends() {
                return;
            }
        }
        self.tally.give_up();
    }

    // The next service.
    fn make(&self) -> Result<Faulty, AllocError> {
        Ok(Faulty {
            errs: self.errs,
            draws: Draws::new(self.draws.next(), 0),
            calls: Cell::new(0),
            was_ready: Cell::new(false),
            tally: self.tally.share()?,
            until: self.until,
        })
    }
}

impl<L: Link> ServiceFactory<L> for Maker {
    type Response = Ended<L>;

    type Error = ();

    type Config = ();

    type Service = Faulty;

    type InitError = ();

    type Future = Ready<Result<Faulty, ()>>;

    ghost may = { λ _ _ link. EndsOf L.Link link };

    ghost may_ready = { λ _ _ _. ⊤ };

    ghost may_begin = { λ _ _ link f. f.link ≡ Some link };

    ghost may_init = { λ _ _ _. ⊤ };

    ghost may_make = { λ _ _. ⊤ };

    ghost begun_gives = { Prim.search rules };

    fn new_service(&self, _cfg: ()) -> Ready<Result<Faulty, ()>> {
        if self.refuses() {
            return err(());
        }
        match self.make() {
            Ok(service) => ok(service),
            Err(AllocError) => err(()),
        }
    }
}
