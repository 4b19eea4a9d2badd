ghost use Rattle.std.specs.Prelude.{⊤, IsOk, IsSome};

use crate::closer::Closer;
use crate::tag::Tag;
use service_core::{Ended, Ready, ServiceFactory, err, ok};
use std::cell::Cell;

/// The factory of the services of a token. An error of its is the token.
#[derive(Drop)]
pub(crate) struct Maker {
    pub(crate) token: usize,
    /// It makes none.
    pub(crate) refuses: bool,
    /// It makes one that errs, and no other.
    pub(crate) errs: bool,
    /// It made one.
    pub(crate) made: Cell<bool>,
}

impl ServiceFactory<Tag> for Maker {
    type Response = Ended<Tag>;

    type Error = usize;

    type Config = ();

    type Service = Closer;

    type InitError = usize;

    type Future = Ready<Result<Closer, usize>>;

    ghost may = { λ _ _ _ r. IsOk r };

    ghost may_ready = { λ _ _ _. ⊤ };

    ghost may_begin = { λ _ _ _ f. IsSome f.link };

    ghost may_init = { λ _ _ _. ⊤ };

    ghost may_make = { λ _ _. ⊤ };

    ghost begun_gives = { λ _ _ _ _ begun. (begun, λ _ given. given) };

    fn new_service(&self, _cfg: ()) -> Ready<Result<Closer, usize>> {
        if self.refuses || (self.errs && self.made.get()) {
            return err(self.token);
        }
        self.made.set(true);
        ok(Closer {
            token: self.token,
            errs: self.errs,
        })
    }
}
