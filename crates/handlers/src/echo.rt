ghost use Rattle.std.specs.Prelude.{◌≡◌, IsSome, Ok};
ghost use Rattle.futures.specs.Task.{IsArmed, Keeps};
ghost use Rattle.futures.specs.Poll.{OnPending};
ghost use Rattle.http_flow.specs.declared.framed.HandedEnd.TheVariants.{Memory};
ghost use Rattle.handlers.specs.Echoing.{EchoGives, Polled};

use crate::read_more::read_more;
use crate::turn::Turn;
use crate::write_back::write_back;
use futures::Future;
use futures::task::{Context, Poll};
use http_flow::{Handed, HandedEnd, Never};
use service_core::{Link, LinkHolder, Octets};

/// Future of a call of `EchoUpgrade`: it writes back what it reads, until the link ends or fails.
///
/// A poll reads at most once.
#[derive(Drop)]
pub struct Echo<L> {
    pub(crate) link: Option<L>,
    /// The bytes that wait to be written.
    pub(crate) waiting: Octets,
    /// Where reads put their bytes.
    pub(crate) buffer: Vec<u8>,
}

// Writes all that waits, and reads once.
fn go_on<L: Link>(
    link: &mut L,
    waiting: &mut Octets,
    buffer: &mut Vec<u8>,
    cx: &mut Context<'_>,
) -> Poll<HandedEnd>
    ensures polled { Polled L.Link link.old link.new waiting.old waiting.new result }
    ensures armed { OnPending result (IsArmed cx.new) }
    ensures kept { Keeps cx.old cx.new }
{
    match write_back(link, waiting, cx) {
        Poll::Pending => return Poll::Pending,
        Poll::Ready(Turn::Out(end)) => return Poll::Ready(end),
        Poll::Ready(Turn::On) => {}
    }
    match read_more(link, waiting, buffer, cx) {
        Poll::Pending => return Poll::Pending,
        Poll::Ready(Turn::Out(end)) => return Poll::Ready(end),
        Poll::Ready(Turn::On) => {}
    }
    match write_back(link, waiting, cx) {
        Poll::Pending => Poll::Pending,
        Poll::Ready(Turn::Out(end)) => Poll::Ready(end),
        Poll::Ready(Turn::On) => cx.yield_now(),
    }
}

impl<L: Link> Future for Echo<L> {
    type Output = Result<Handed<L>, Never>;

    ghost can_poll = { λ f. IsSome f.link };

    ghost gives = { λ f r. EchoGives L.Link f r };

    fn poll(&mut self, cx: &mut Context<'_>) -> Poll<Result<Handed<L>, Never>> {
        let mut link = self.link.take().unwrap();
        match go_on(&mut link, &mut self.waiting, &mut self.buffer, cx) {
            Poll::Pending => {
                self.link = Some(link);
                Poll::Pending
            }
            Poll::Ready(end) => Poll::Ready(Ok(Handed { link, end })),
        }
    }
}

impl<L: Link> LinkHolder<L> for Echo<L> {
    ghost may_stand = { λ f link. ⟦<Echo<L> as Future>⟧.gives f (Ok (record { link = link; end = Memory })) };

    ghost stands_by_gives = { λ wide narrow within link h. within (Ok (record { link = link; end = Memory })) h };

    fn into_link(self) -> L {
        let Echo { link, .. } = self;
        link.unwrap()
    }
}
