ghost use Rattle.std.specs.Prelude.{⊤, IsOk, IsSome};

use crate::closing::Closing;
use crate::tag::Tag;
use futures::task::{Context, Poll};
use service_core::{Ended, Service};

/// Ends each connection, and neither reads nor writes.
#[derive(Clone, Copy)]
pub(crate) struct Closer {
    pub(crate) token: usize,
    /// Its readiness errs, by an error that names the token.
    pub(crate) errs: bool,
}

impl Service<Tag> for Closer {
    type Response = Ended<Tag>;

    type Error = usize;

    type Future = Closing;

    ghost may = { λ _ _ r. IsOk r };

    ghost may_ready = { λ _ _. ⊤ };

    ghost may_begin = { λ _ _ f. IsSome f.link };

    ghost begun_gives = { λ _ _ _ begun. (begun, λ _ given. given) };

    fn poll_ready(&self, _cx: &mut Context<'_>) -> Poll<Result<(), usize>> {
        if self.errs {
            return Poll::Ready(Err(self.token));
        }
        Poll::Ready(Ok(()))
    }

    fn call(&self, req: Tag) -> Closing {
        Closing {
            link: Some(req),
            waited: false,
        }
    }
}
