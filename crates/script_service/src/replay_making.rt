ghost use Rattle.script_service.specs.Making.{ByPart};

use crate::parts::{InitError, Making};
use crate::replay_service::ReplayService;
use futures::Future;
use futures::task::{Context, Poll};
use service_core::Link;

/// A service of a script's connections in making.
#[derive(Drop)]
pub struct ReplayMaking<L: Link> {
    pub(crate) making: Making<L>,
}

impl<L: Link> Future for ReplayMaking<L> {
    type Output = Result<ReplayService<L>, InitError>;

    ghost can_poll = { λ m. ⟦<Making<L> as Future>⟧.can_poll m.making };

    ghost needs = { λ m. ⟦<Making<L> as Future>⟧.needs m.making };

    ghost gives = { λ m. ByPart (λ s. s.handler) (⟦<Making<L> as Future>⟧.gives m.making) };

    fn poll(&mut self, cx: &mut Context<'_>) -> Poll<Result<ReplayService<L>, InitError>> {
        match self.making.poll(cx) {
            Poll::Pending => Poll::Pending,
            Poll::Ready(Err(error)) => Poll::Ready(Err(error)),
            Poll::Ready(Ok(handler)) => Poll::Ready(Ok(ReplayService { handler })),
        }
    }
}
