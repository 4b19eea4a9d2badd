ghost use Rattle.std.specs.Prelude.{Ok};
ghost use Rattle.service_core.specs.declared.ended.How.TheVariants.{Memory};

use crate::parts::{Connection, Fault};
use futures::Future;
use futures::task::{Context, Poll};
use service_core::{Ended, Link, LinkHolder};

/// A connection that is served.
#[derive(Drop)]
pub(crate) struct GateFuture<L: Link> {
    pub(crate) connection: Connection<L>,
}

impl<L: Link> Future for GateFuture<L> {
    type Output = Result<Ended<L>, Fault<L>>;

    ghost can_poll = { λ f. ⟦<Connection<L> as Future>⟧.can_poll f.connection };

    ghost needs = { λ f. ⟦<Connection<L> as Future>⟧.needs f.connection };

    ghost gives = { λ f. ⟦<Connection<L> as Future>⟧.gives f.connection };

    fn poll(&mut self, cx: &mut Context<'_>) -> Poll<Result<Ended<L>, Fault<L>>> {
        self.connection.poll(cx)
    }
}

impl<L: Link> LinkHolder<L> for GateFuture<L> {
    ghost may_stand = { λ f. ⟦<Connection<L> as LinkHolder<L>>⟧.may_stand f.connection };

    ghost stands_by_gives = { λ wide narrow within link h. within (Ok (record { link = link; how = Memory })) h };

    fn into_link(self) -> L {
        self.connection.into_link()
    }
}
