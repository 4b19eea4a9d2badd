//! The factory of the tests.
ghost use Rattle.std.specs.Prelude.{◌≡◌, ⊤, Some};
ghost use Rattle.std.proofs.Common.{rules};
ghost use Rattle.server_run.specs.Creating.{OnlyEnds};

use crate::desk::Desk;
use crate::opening::Opening;
use server_run::ServerServiceFactory;
use service_core::{Ended, Link, ServiceFactory};
use std::alloc::{AllocError, Global};
use std::cell::Cell;

/// What a service errs by.
#[derive(Clone, Copy)]
pub(crate) struct Fault {
    /// The token of the service.
    pub(crate) token: usize,
}

/// What comes in place of a service.
#[derive(Clone, Copy)]
pub(crate) struct Refusal {
    /// The token of the service.
    pub(crate) token: usize,
}

/// How the services of a worker are made, and how ready they are.
#[derive(Clone, Copy)]
pub(crate) struct Plan {
    /// The making of a service waits so many times for each token below its own.
    pub(crate) waits: usize,
    /// The token whose service is refused.
    pub(crate) refused: Option<usize>,
    /// So many times the service of the token 1 is not ready.
    pub(crate) unready: u32,
    /// The first services of so many tokens err.
    pub(crate) erring: usize,
    /// So many times they are asked before.
    pub(crate) asks: u32,
    /// Whether no service is made anew.
    pub(crate) refuses_anew: bool,
}

/// All services are made, as soon as they can be, and are ready.
pub(crate) const PLAIN: Plan = Plan {
    waits: 0,
    refused: None,
    unready: 0,
    erring: 0,
    asks: 0,
    refuses_anew: false,
};

/// The factory of the services of a token.
#[derive(Drop)]
pub(crate) struct Maker {
    plan: Plan,
    token: usize,
    // A service was made.
    is_anew: Cell<bool>,
}

impl Maker {
    // When the next service errs, if it does.
    fn errs(&self) -> Option<u32> {
        if self.is_anew.get() || self.token >= self.plan.erring {
            return None;
        }
        Some(self.plan.asks)
    }

    // Whether the next service is refused.
    fn is_refused(&self) -> bool {
        self.plan.refused == Some(self.token) || self.is_anew.get() && self.plan.refuses_anew
    }

    // How often the next service is not ready.
    fn unready(&self) -> u32 {
        if self.token == 1 {
            self.plan.unready
        } else {
            0
        }
    }

    // The next service.
    fn desk(&self) -> Result<Desk, Refusal> {
        if self.is_refused() {
            return Err(Refusal { token: self.token });
        }
        Ok(Desk::new(self.token, self.unready(), self.errs()))
    }
}

impl<L: Link> ServiceFactory<L> for Maker {
    type Response = Ended<L>;

    type Error = Fault;

    type Config = ();

    type Service = Desk;

    type InitError = Refusal;

    type Future = Opening;

    ghost may = { λ _ _ link r. OnlyEnds (λ ended. L.identity ended.link ≡ L.identity link) r };

    ghost may_ready = { λ _ _ _. ⊤ };

    ghost may_begin = { λ _ _ link f. f.link ≡ Some link };

    ghost may_init = { λ _ _ _. ⊤ };

    ghost may_make = { λ _ _. ⊤ };

    ghost begun_gives = { Prim.search rules };

    fn new_service(&self, _cfg: ()) -> Opening {
        let value = self.desk();
        self.is_anew.set(true);
        Opening {
            waits: self.plan.waits.saturating_mul(self.token),
            value: Some(value),
        }
    }
}

impl<L: Link> ServerServiceFactory<L> for Plan {
    type Factory = Maker;

    ghost may_serve = { λ _ _ link ended. L.identity ended.link ≡ L.identity link };

    ghost may_leave = { λ _ _ link back. L.identity back ≡ L.identity link };

    ghost may_ready = { λ _ _ _. ⊤ };

    ghost may_init = { λ _ _ _. ⊤ };

    ghost may_make = { λ _ _. ⊤ };

    fn create(&self, _alloc: Global, token: usize) -> Result<Maker, AllocError> {
        Ok(Maker {
            plan: *self,
            token,
            is_anew: Cell::new(false),
        })
    }

    ghost same_served = { λ _ _ _ _ serves. serves };

    ghost same_left = { λ _ _ _ _ same. same };
}
