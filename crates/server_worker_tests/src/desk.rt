ghost use Rattle.std.specs.Prelude.{◌≡◌, ⊤, Some};
ghost use Rattle.std.proofs.Common.{rules};
ghost use Rattle.server_run.specs.Creating.{OnlyEnds};

use crate::echo::Echo;
use crate::plan::Fault;
use futures::task::{Context, Poll};
use service_core::{Ended, Link, Service};
use std::cell::Cell;

/// The service of the connections of a token.
#[derive(Drop)]
pub(crate) struct Desk {
    token: usize,
    // So many times it is asked, and is not ready.
    unready: Cell<u32>,
    // So many times it is asked before it errs, where it does.
    errs: Cell<Option<u32>>,
}

impl Desk {
    /// Not ready so many times, and erring once it was asked so often.
    pub(crate) fn new(token: usize, unready: u32, errs: Option<u32>) -> Desk {
        Desk {
            token,
            unready: Cell::new(unready),
            errs: Cell::new(errs),
        }
    }

    // Whether it errs now.
    fn errs_now(&self) -> bool {
        match self.errs.get() {
            Some(0) => true,
            Some(left) => {
                self.errs.set(Some(left - 1));
                false
            }
            None => false,
        }
    }
}

impl<L: Link> Service<L> for Desk {
    type Response = Ended<L>;

    type Error = Fault;

    type Future = Echo<L>;

    ghost may = { λ _ link r. OnlyEnds (λ ended. L.identity ended.link ≡ L.identity link) r };

    ghost may_ready = { λ _ _. ⊤ };

    ghost may_begin = { λ _ link f. f.link ≡ Some link };

    ghost begun_gives = { Prim.search rules };

    fn poll_ready(&self, cx: &mut Context<'_>) -> Poll<Result<(), Fault>> {
        if self.errs_now() {
            return Poll::Ready(Err(Fault { token: self.token }));
        }
        let left = self.unready.get();
        if left == 0 {
            return Poll::Ready(Ok(()));
        }
        self.unready.set(left - 1);
        cx.yield_now()
    }

    fn call(&self, req: L) -> Echo<L> {
        Echo::new(req)
    }
}
