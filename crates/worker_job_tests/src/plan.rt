ghost use Rattle.std.specs.Prelude.{⊤};
ghost use Rattle.std.proofs.Common.{refl};

use crate::maker::Maker;
use crate::tag::Tag;
use server_run::ServerServiceFactory;
use std::alloc::{AllocError, Global};
use std::cell::Cell;

/// How many listeners a worker of the tests has.
pub(crate) const LISTENERS: usize = 2;

/// How the services of a worker are made.
#[derive(Clone, Copy)]
pub(crate) struct Plan {
    /// The token whose service is refused.
    pub(crate) refused: Option<usize>,
    /// The token whose service errs when it is asked, and can't be made anew.
    pub(crate) erring: Option<usize>,
}

impl ServerServiceFactory<Tag> for Plan {
    type Factory = Maker;

    ghost may_serve = { λ _ _ _ _. ⊤ };

    ghost may_leave = { λ _ _ _ _. ⊤ };

    ghost may_ready = { λ _ _ _. ⊤ };

    ghost may_init = { λ _ _ _. ⊤ };

    ghost may_make = { λ _ _. ⊤ };

    fn create(&self, _alloc: Global, token: usize) -> Result<Maker, AllocError> {
        Ok(Maker {
            token,
            refuses: self.refused == Some(token),
            errs: self.erring == Some(token),
            made: Cell::new(false),
        })
    }

    ghost same_served = { λ _ _ _ _ _. refl };

    ghost same_left = { λ _ _ _ _ _. refl };
}
