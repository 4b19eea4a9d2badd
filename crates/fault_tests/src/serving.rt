//! Connections that are served.
ghost use Rattle.std.specs.Prelude.{◌≡◌, Ok, IsSome};
ghost use Rattle.futures.specs.Poll.{OnPending};
ghost use Rattle.futures.specs.Task.{IsArmed, Keeps};
ghost use Rattle.service_core.specs.declared.ended.How.TheVariants.{Served};
ghost use Rattle.serve_stage.specs.Ending.{GivesBack};

use crate::awaited::Awaited;
use futures::Future;
use futures::task::{Context, Poll};
use service_core::{Ended, How, Link, LinkHolder};

/// Ends a connection once what it waits for has come, and its link is read to its end.
#[derive(Drop)]
pub(crate) struct Serving<L> {
    pub(crate) link: Option<L>,
    pub(crate) awaited: Option<Awaited>,
}

// Whether what is awaited has come.
fn has_come(awaited: &mut Option<Awaited>) -> bool {
    match awaited {
        Some(awaited) => awaited.has_come(),
        None => true,
    }
}

// Reads a piece, once what is awaited has come. At the end of the link the connection is served.
fn go_on<L: Link>(awaited: &mut Option<Awaited>, link: &mut L, cx: &mut Context<'_>) -> Poll<How>
    ensures same { L.identity link.new ≡ L.identity link.old }
    ensures armed { OnPending result (IsArmed cx.new) }
    ensures kept { Keeps cx.old cx.new }
{
    if !has_come(awaited) {
        return cx.yield_now();
    }
    let mut buffer = [0; 16];
    match link.poll_read(cx, &mut buffer) {
        Poll::Pending => Poll::Pending,
        Poll::Ready(Err(_)) => Poll::Ready(How::ReadFault),
        Poll::Ready(Ok(0)) => Poll::Ready(How::Served),
        Poll::Ready(Ok(_)) => cx.yield_now(),
    }
}

impl<L: Link> Future for Serving<L> {
    type Output = Result<Ended<L>, ()>;

    ghost can_poll = { λ f. IsSome f.link };

    ghost gives = { λ f r. GivesBack L.Link f.link r };

    fn poll(&mut self, cx: &mut Context<'_>) -> Poll<Result<Ended<L>, ()>> {
        let mut link = self.link.take().unwrap();
        match go_on(&mut self.awaited, &mut link, cx) {
            Poll::Pending => {
                self.link = Some(link);
                Poll::Pending
            }
            Poll::Ready(how) => Poll::Ready(Ok(Ended { link, how })),
        }
    }
}

impl<L: Link> LinkHolder<L> for Serving<L> {
    ghost may_stand = { λ f link. GivesBack {E = Unit {0}} L.Link f.link (Ok (record { link = link; how = Served })) };

    ghost stands_by_gives = { λ wide narrow within link h. within (Ok (record { link = link; how = Served })) h };

    fn into_link(self) -> L {
        self.link.unwrap()
    }
}
