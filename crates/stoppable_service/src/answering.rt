//! A connection that is answered.
ghost use Rattle.std.specs.Prelude.{◌≡◌, IsSome, Ok};
ghost use Rattle.futures.specs.Task.{IsArmed, Keeps};
ghost use Rattle.futures.specs.Poll.{OnPending};
ghost use Rattle.service_core.specs.declared.ended.How.TheVariants.{Memory};
ghost use Rattle.stoppable_service.specs.Answering.{GivesBack};

use crate::stop_handle::StopHandle;
use futures::Future;
use futures::task::{Context, Poll};
use service_core::{Ended, How, Link, LinkHolder, Octets};
use std::sync::{Arc, Wait};

/// A connection under way: the peer sends the head of a request, and is written a response. A poll reads or writes at most once.
#[derive(Drop)]
pub struct Answering<L, W> {
    /// Its link, until it has ended.
    pub(crate) link: Option<L>,
    /// What it stops the server by.
    pub(crate) stop: Option<Arc<StopHandle<W>>>,
    /// What was read of the head.
    pub(crate) request: Octets,
    /// What is still to be written.
    pub(crate) answer: Octets,
}

impl<L: Link, W: Wait + Drop> Answering<L, W> {
    // The next read or write.
    fn go_on(&mut self, link: &mut L, cx: &mut Context<'_>) -> Poll<How>
        ensures same { L.identity link.new ≡ L.identity link.old }
        ensures armed { OnPending result (IsArmed cx.new) }
        ensures kept { Keeps cx.old cx.new }
    {
        if self.answer.len() == 0 {
            self.read(link, cx)
        } else {
            self.write(link, cx)
        }
    }
}

impl<L: Link, W: Wait + Drop> Future for Answering<L, W> {
    type Output = Result<Ended<L>, ()>;

    ghost can_poll = { λ f. IsSome f.link };

    ghost gives = { λ f r. GivesBack L.Link f r };

    fn poll(&mut self, cx: &mut Context<'_>) -> Poll<Result<Ended<L>, ()>> {
        let mut link = self.link.take().unwrap();
        match self.go_on(&mut link, cx) {
            Poll::Pending => {
                self.link = Some(link);
                Poll::Pending
            }
            Poll::Ready(how) => Poll::Ready(Ok(Ended { link, how })),
        }
    }
}

impl<L: Link, W: Wait + Drop> LinkHolder<L> for Answering<L, W> {
    ghost may_stand = { λ f link. GivesBack {E = Unit {0}} L.Link f (Ok (record { link = link; how = Memory })) };

    ghost stands_by_gives = { λ wide narrow within link h. within (Ok (record { link = link; how = Memory })) h };

    fn into_link(self) -> L {
        self.link.unwrap()
    }
}
