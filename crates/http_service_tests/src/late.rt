//! The future of a part.
ghost use Rattle.std.specs.Prelude.{⊤, IsSome};

use crate::mood::Fault;
use futures::Future;
use futures::task::{Context, Poll};

/// Gives its value, at once or behind one wait.
#[derive(Drop)]
pub(crate) struct Late<P> {
    pub(crate) value: Option<Result<P, Fault>>,
    pub(crate) waits: bool,
}

impl<P: Drop> Future for Late<P> {
    type Output = Result<P, Fault>;

    ghost can_poll = { λ f. IsSome f.value };

    ghost gives = { λ _ _. ⊤ };

    fn poll(&mut self, cx: &mut Context<'_>) -> Poll<Result<P, Fault>> {
        if self.waits {
            self.waits = false;
            return cx.yield_now();
        }
        Poll::Ready(self.value.take().unwrap())
    }
}
