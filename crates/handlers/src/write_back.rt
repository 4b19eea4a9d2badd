ghost use Rattle.std.specs.Prelude.{◌≡◌, []};
ghost use Rattle.futures.specs.Task.{IsArmed, Keeps};
ghost use Rattle.futures.specs.Poll.{OnPending};
ghost use Rattle.futures.specs.declared.task.Poll.TheVariants.{Ready as PollReady};
ghost use Rattle.handlers.specs.Echoing.{Turns};
ghost use Rattle.handlers.specs.declared.turn.Turn.TheVariants.{On};

use crate::turn::Turn;
use futures::task::{Context, Poll};
use http_flow::HandedEnd;
use service_core::{Link, LinkFault, Octets};

/// Writes all that waits, as far as the link takes it.
pub(crate) fn write_back<L: Link>(
    link: &mut L,
    waiting: &mut Octets,
    cx: &mut Context<'_>,
) -> Poll<Turn>
    ensures turns { Turns L.Link link.old link.new waiting.old waiting.new result }
    ensures all { result ≡ PollReady On → waiting.new ≡ [] }
    ensures armed { OnPending result (IsArmed cx.new) }
    ensures kept { Keeps cx.old cx.new }
{
    while waiting.len() > 0 {
        match link.poll_write(cx, waiting.as_bytes()) {
            Poll::Pending => return Poll::Pending,
            Poll::Ready(Err(LinkFault::Failed)) => return Poll::Ready(Turn::Out(HandedEnd::Fault)),
            Poll::Ready(Err(LinkFault::Memory)) => return Poll::Ready(Turn::Out(HandedEnd::Memory)),
            Poll::Ready(Ok(count)) => waiting.drop_front(count),
        }
    }
    Poll::Ready(Turn::On)
}
