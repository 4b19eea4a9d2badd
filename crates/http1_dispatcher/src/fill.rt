ghost use Rattle.std.specs.Prelude.{◌≡◌, ◌<◌, OnOk, vec_len};
ghost use Rattle.futures.specs.Task.{IsArmed, Keeps};
ghost use Rattle.futures.specs.Poll.{OnPending};
ghost use Rattle.http1_dispatcher.specs.Connection.{TookLittle};
ghost use Rattle.http1_dispatcher.specs.Moves.{KeptWriting, FillAnswer};

use crate::turn::{Exit, Turn};
use futures::task::{Context, Poll};
use http1_reader::Reader;
use service_core::{How, Link, LinkFault};
use std::alloc::AllocError;

/// The most bytes that one read takes.
const MOST_TAKEN: usize = 4096;

// The most that a read takes until one took so many. A connection of small requests keeps no more room.
const FEW: usize = 1024;

// Makes the room for reads as large as it gets. It stays as it is where memory lacks.
fn enlarge(buffer: &mut Vec<u8>) {
    if buffer.len() < MOST_TAKEN {
        let _ = buffer.resize(MOST_TAKEN, 0);
    }
}

// Where a read puts its bytes, which is made for the first.
fn prepare(buffer: &mut Vec<u8>) -> Result<(), AllocError>
    ensures { OnOk result (0 < vec_len buffer.new) }
{
    if buffer.is_empty() {
        *buffer = vec![in *buffer.allocator(); 0; FEW]?;
    }
    Ok(())
}

/// Reads once. At the end of the link the connection has ended as served.
pub(crate) fn fill<L: Link>(
    link: &mut L,
    buffer: &mut Vec<u8>,
    reader: &mut Reader,
    cx: &mut Context<'_>,
) -> Poll<Turn>
    ensures same { KeptWriting L.Link link.old link.new }
    ensures answer { FillAnswer L.Link link.old link.new reader.old reader.new result }
    ensures little { TookLittle L.Link link.old link.new }
    ensures armed { OnPending result (IsArmed cx.new) }
    ensures kept { Keeps cx.old cx.new }
{
    if prepare(buffer).is_err() {
        return Poll::Ready(Turn::Out(Exit::Ended(How::Memory)));
    }
    let most = buffer.len().min(MOST_TAKEN);
    let room = &mut buffer[..most];
    match link.poll_read(cx, room) {
        Poll::Pending => Poll::Pending,
        Poll::Ready(Err(LinkFault::Failed)) => Poll::Ready(Turn::Out(Exit::Ended(How::ReadFault))),
        Poll::Ready(Err(LinkFault::Memory)) => unreachable!(),
        Poll::Ready(Ok(0)) => Poll::Ready(Turn::Out(Exit::Ended(How::Served))),
        Poll::Ready(Ok(count)) => {
            if reader.feed(&room[..count]).is_err() {
                return Poll::Ready(Turn::Out(Exit::Ended(How::Memory)));
            }
            if count == most {
                enlarge(buffer);
            }
            Poll::Ready(Turn::On)
        }
    }
}
