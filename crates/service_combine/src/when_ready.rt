ghost use Rattle.std.specs.Prelude.{◌≡◌, Some, Ok, Err, MatchResult};
ghost use Rattle.futures.specs.declared.task.Poll.TheVariants.{Ready as PollReady};
ghost use Rattle.service_core.specs.Holding.{OfKept};

use futures::Future;
use futures::task::{Context, Poll};
use service_core::Service;
use std::marker::PhantomData;

/// A service, given once it is ready.
#[derive(Drop)]
pub(crate) struct WhenReady<S, Req> {
    pub(crate) service: Option<S>,
    pub(crate) request: PhantomData<Req>,
}

impl<S: Service<Req> + Drop, Req: Drop> Future for WhenReady<S, Req> {
    type Output = Result<S, S::Error>;

    ghost can_poll = { λ w. OfKept w.service S.can_call };

    ghost gives = { λ w r. MatchResult r (λ s. (w.service ≡ Some s) × S.may_ready s (PollReady (Ok tt)))
        (λ e. OfKept w.service (λ s. S.may_ready s (PollReady (Err e)))) };

    fn poll(&mut self, cx: &mut Context<'_>) -> Poll<Result<S, S::Error>> {
        match &self.service {
            None => unreachable!(),
            Some(service) => match service.poll_ready(cx) {
                Poll::Pending => Poll::Pending,
                Poll::Ready(Err(e)) => Poll::Ready(Err(e)),
                Poll::Ready(Ok(())) => Poll::Ready(Ok(self.service.take().unwrap())),
            },
        }
    }
}
