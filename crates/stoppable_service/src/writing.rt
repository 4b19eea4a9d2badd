//! How a response is written.
ghost use Rattle.std.specs.Prelude.{◌≡◌, ◌<◌, length};
ghost use Rattle.futures.specs.Task.{IsArmed, Keeps};
ghost use Rattle.futures.specs.Poll.{OnPending};

use crate::answering::Answering;
use futures::task::{Context, Poll};
use service_core::{How, Link, LinkFault};
use std::sync::Wait;

impl<L: Link, W: Wait + Drop> Answering<L, W> {
    // Writes a piece of the answer.
    pub(crate) fn write(&mut self, link: &mut L, cx: &mut Context<'_>) -> Poll<How>
        requires { 0 < length self.old.answer }
        ensures same { L.identity link.new ≡ L.identity link.old }
        ensures armed { OnPending result (IsArmed cx.new) }
        ensures kept { Keeps cx.old cx.new }
    {
        match link.poll_write(cx, self.answer.as_bytes()) {
            Poll::Pending => Poll::Pending,
            Poll::Ready(Err(LinkFault::Failed)) => Poll::Ready(How::WriteFault),
            Poll::Ready(Err(LinkFault::Memory)) => Poll::Ready(How::Memory),
            Poll::Ready(Ok(count)) => {
                self.answer.drop_front(count);
                if self.answer.len() == 0 {
                    return Poll::Ready(How::Served);
                }
                cx.yield_now()
            }
        }
    }
}
