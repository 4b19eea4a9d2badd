ghost use Rattle.std.specs.Prelude.{◌≡◌, Some, Ok, IsSome};
ghost use Rattle.service_core.specs.Holding.{OfKept};
ghost use Rattle.service_core.specs.declared.ended.How.TheVariants.{Served};
ghost use Rattle.server_run.specs.Creating.{OnlyEnds};

use crate::held::Held;
use crate::plan::Fault;
use futures::Future;
use futures::task::{Context, Poll};
use service_core::{Ended, Link, LinkHolder};

/// Reads a link to its end, and writes back what it reads. Each poll reads once, or writes once.
#[derive(Drop)]
pub(crate) struct Echo<L> {
    link: Option<L>,
    held: Held,
}

impl<L: Link> Echo<L> {
    /// Nothing was read of the link yet.
    pub(crate) fn new(link: L) -> Echo<L>
        ensures { result.link ≡ Some link }
    {
        Echo {
            link: Some(link),
            held: Held::new(),
        }
    }
}

impl<L: Link> Future for Echo<L> {
    type Output = Result<Ended<L>, Fault>;

    ghost can_poll = { λ f. IsSome f.link };

    ghost gives = { λ f r. OfKept f.link (λ given. OnlyEnds (λ ended. L.identity ended.link ≡ L.identity given) r) };

    fn poll(&mut self, cx: &mut Context<'_>) -> Poll<Result<Ended<L>, Fault>> {
        let mut link = self.link.take().unwrap();
        match self.held.step(&mut link, cx) {
            Poll::Ready(Some(how)) => Poll::Ready(Ok(Ended { link, how })),
            Poll::Ready(None) => {
                self.link = Some(link);
                cx.yield_now()
            }
            Poll::Pending => {
                self.link = Some(link);
                Poll::Pending
            }
        }
    }
}

impl<L: Link> LinkHolder<L> for Echo<L> {
    ghost may_stand = { λ f link. ⟦<Echo<L> as Future>⟧.gives f (Ok (record { link = link; how = Served })) };

    ghost stands_by_gives = { λ wide narrow within link h. within (Ok (record { link = link; how = Served })) h };

    fn waits_for(&self) -> Option<u32> {
        self.link.as_ref()?.waits_for()
    }

    fn into_link(self) -> L {
        self.link.unwrap()
    }
}
