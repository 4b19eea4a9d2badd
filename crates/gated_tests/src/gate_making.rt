ghost use Rattle.script_service.specs.Making.{ByPart};

use crate::gate_service::GateService;
use crate::parts::{InitError, Making};
use futures::Future;
use futures::task::{Context, Poll};
use service_core::Link;

/// A service of connections in making.
#[derive(Drop)]
pub(crate) struct GateMaking<L: Link> {
    pub(crate) making: Making<L>,
}

impl<L: Link> Future for GateMaking<L> {
    type Output = Result<GateService<L>, InitError>;

    ghost can_poll = { λ m. ⟦<Making<L> as Future>⟧.can_poll m.making };

    ghost needs = { λ m. ⟦<Making<L> as Future>⟧.needs m.making };

    ghost gives = { λ m. ByPart (λ s. s.handler) (⟦<Making<L> as Future>⟧.gives m.making) };

    fn poll(&mut self, cx: &mut Context<'_>) -> Poll<Result<GateService<L>, InitError>> {
        match self.making.poll(cx) {
            Poll::Pending => Poll::Pending,
            Poll::Ready(Err(error)) => Poll::Ready(Err(error)),
            Poll::Ready(Ok(handler)) => Poll::Ready(Ok(GateService { handler })),
        }
    }
}
