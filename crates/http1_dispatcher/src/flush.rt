ghost use Rattle.std.specs.Prelude.{◌≡◌};
ghost use Rattle.futures.specs.Task.{IsArmed, Keeps};
ghost use Rattle.futures.specs.Poll.{OnPending};
ghost use Rattle.http1_dispatcher.specs.Moves.{Flushed, FlushAnswer};

use crate::outgoing::Outgoing;
use crate::turn::{Exit, Turn};
use futures::task::{Context, Poll};
use service_core::{How, Link, LinkFault};

/// Writes all that waits, as far as the link takes it.
pub(crate) fn flush<L: Link>(link: &mut L, out: &mut Outgoing, cx: &mut Context<'_>) -> Poll<Turn>
    ensures flushed { Flushed L.Link link.old link.new out.old out.new }
    ensures answer { FlushAnswer L.Link link.old link.new out.new result }
    ensures armed { OnPending result (IsArmed cx.new) }
    ensures kept { Keeps cx.old cx.new }
{
    while out.len() > 0 {
        match link.poll_write(cx, out.as_bytes()) {
            Poll::Pending => return Poll::Pending,
            Poll::Ready(Err(LinkFault::Failed)) => return Poll::Ready(Turn::Out(Exit::Ended(
                How::WriteFault,
            ))),
            Poll::Ready(Err(LinkFault::Memory)) => return Poll::Ready(Turn::Out(Exit::Ended(
                How::Memory,
            ))),
            Poll::Ready(Ok(count)) => out.drop_front(count),
        }
    }
    Poll::Ready(Turn::On)
}
