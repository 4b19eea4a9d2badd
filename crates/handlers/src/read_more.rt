ghost use Rattle.std.specs.Prelude.{◌≡◌, ◌<◌, [], OnOk, vec_len};
ghost use Rattle.futures.specs.Task.{IsArmed, Keeps};
ghost use Rattle.futures.specs.Poll.{OnPending};
ghost use Rattle.handlers.specs.Echoing.{Turns};

use crate::turn::Turn;
use futures::task::{Context, Poll};
use http_flow::HandedEnd;
use service_core::{Link, LinkFault, Octets};
use std::alloc::AllocError;

/// The most bytes that one read takes.
const MOST_TAKEN: usize = 4096;

// Where a read puts its bytes, which is made for the first.
fn prepare(buffer: &mut Vec<u8>) -> Result<(), AllocError>
    ensures { OnOk result (0 < vec_len buffer.new) }
{
    if buffer.is_empty() {
        *buffer = vec![in *buffer.allocator(); 0; MOST_TAKEN]?;
    }
    Ok(())
}

/// Reads once, where nothing waits to be written. What was read waits then.
pub(crate) fn read_more<L: Link>(
    link: &mut L,
    waiting: &mut Octets,
    buffer: &mut Vec<u8>,
    cx: &mut Context<'_>,
) -> Poll<Turn>
    requires { waiting.old ≡ [] }
    ensures turns { Turns L.Link link.old link.new waiting.old waiting.new result }
    ensures armed { OnPending result (IsArmed cx.new) }
    ensures kept { Keeps cx.old cx.new }
{
    if prepare(buffer).is_err() {
        return Poll::Ready(Turn::Out(HandedEnd::Memory));
    }
    let most = buffer.len().min(MOST_TAKEN);
    let room = &mut buffer[..most];
    match link.poll_read(cx, room) {
        Poll::Pending => Poll::Pending,
        Poll::Ready(Err(LinkFault::Failed)) => Poll::Ready(Turn::Out(HandedEnd::Fault)),
        Poll::Ready(Err(LinkFault::Memory)) => unreachable!(),
        Poll::Ready(Ok(0)) => Poll::Ready(Turn::Out(HandedEnd::Done)),
        Poll::Ready(Ok(count)) => match waiting.push_all(&room[..count]) {
            Ok(()) => Poll::Ready(Turn::On),
            Err(_) => Poll::Ready(Turn::Out(HandedEnd::Memory)),
        },
    }
}
