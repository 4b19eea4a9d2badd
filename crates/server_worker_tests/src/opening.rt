ghost use Rattle.std.specs.Prelude.{⊤, IsSome};

use crate::desk::Desk;
use crate::plan::Refusal;
use futures::Future;
use futures::task::{Context, Poll};

/// The making of a service.
#[derive(Drop)]
pub(crate) struct Opening {
    // So many polls come before the last one.
    pub(crate) waits: usize,
    pub(crate) value: Option<Result<Desk, Refusal>>,
}

impl Future for Opening {
    type Output = Result<Desk, Refusal>;

    ghost can_poll = { λ f. IsSome f.value };

    ghost gives = { λ _ _. ⊤ };

    fn poll(&mut self, cx: &mut Context<'_>) -> Poll<Result<Desk, Refusal>> {
        if self.waits > 0 {
            self.waits -= 1;
            return cx.yield_now();
        }
        Poll::Ready(self.value.take().unwrap())
    }
}
