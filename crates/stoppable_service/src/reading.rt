//! How the head of a request is read.
ghost use Rattle.std.specs.Prelude.{◌≡◌};
ghost use Rattle.futures.specs.Task.{IsArmed, Keeps};
ghost use Rattle.futures.specs.Poll.{OnPending};

use crate::answering::Answering;
use crate::reply::{Reply, asks_to_stop, is_whole};
use futures::task::{Context, Poll};
use service_core::{How, Link, LinkFault};
use std::sync::Wait;

impl<L: Link, W: Wait + Drop> Answering<L, W> {
    // What the request is answered. One for `/stop` stops the server, gracefully.
    fn reply(&self) -> Reply {
        if !asks_to_stop(self.request.as_bytes()) {
            return Reply::Hello;
        }
        match &self.stop {
            Some(stop) if stop.stop() => Reply::Stopping,
            Some(_) | None => Reply::NotStopping,
        }
    }

    // Makes the answer, once the head is whole. False says that there was no memory.
    fn answer(&mut self) -> bool {
        if !is_whole(self.request.as_bytes()) {
            return true;
        }
        let reply = self.reply();
        self.answer.push_all(reply.as_bytes()).is_ok()
    }

    // Reads a piece of the head.
    pub(crate) fn read(&mut self, link: &mut L, cx: &mut Context<'_>) -> Poll<How>
        ensures same { L.identity link.new ≡ L.identity link.old }
        ensures armed { OnPending result (IsArmed cx.new) }
        ensures kept { Keeps cx.old cx.new }
    {
        let mut buffer = [0; 64];
        match link.poll_read(cx, &mut buffer) {
            Poll::Pending => Poll::Pending,
            Poll::Ready(Err(LinkFault::Failed)) => Poll::Ready(How::ReadFault),
            Poll::Ready(Err(LinkFault::Memory)) => unreachable!(),
            Poll::Ready(Ok(0)) => Poll::Ready(How::Served),
            Poll::Ready(Ok(count)) => {
                if self.request.push_all(&buffer[..count]).is_err() || !self.answer() {
                    return Poll::Ready(How::Memory);
                }
                cx.yield_now()
            }
        }
    }
}
