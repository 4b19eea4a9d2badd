use crate::gate_future::GateFuture;
use crate::parts::{Fault, Handler};
use futures::task::{Context, Poll};
use service_core::{Ended, Link, Service};

/// Serves connections.
#[derive(Drop)]
pub(crate) struct GateService<L> {
    pub(crate) handler: Handler<L>,
}

impl<L: Link> Service<L> for GateService<L> {
    type Response = Ended<L>;

    type Error = Fault<L>;

    type Future = GateFuture<L>;

    ghost can_call = { λ s. ⟦<Handler<L> as Service<L>>⟧.can_call s.handler };

    ghost may = { λ s. ⟦<Handler<L> as Service<L>>⟧.may s.handler };

    ghost may_ready = { λ s. ⟦<Handler<L> as Service<L>>⟧.may_ready s.handler };

    ghost may_begin = { λ s link f. ⟦<Handler<L> as Service<L>>⟧.may_begin s.handler link f.connection };

    ghost begun_gives = { λ s link f begun. begun.fits };

    fn poll_ready(&self, cx: &mut Context<'_>) -> Poll<Result<(), Fault<L>>> {
        Service::<L>::poll_ready(&self.handler, cx)
    }

    fn call(&self, link: L) -> GateFuture<L> {
        GateFuture {
            connection: Service::<L>::call(&self.handler, link),
        }
    }
}
