ghost use Rattle.std.specs.Prelude.{◌≡◌, ◌≤◌, ◌<◌};
ghost use Rattle.futures.specs.Poll.{OnPending};
ghost use Rattle.futures.specs.Task.{IsArmed, Keeps};

use futures::task::{Context, Poll};
use service_core::{How, Link, LinkFault};

/// What was read of a link, and is not written back yet: three bytes at most.
#[derive(Drop)]
pub(crate) struct Held {
    bytes: [u8; 3],
    from: usize,
    to: usize,
    ghost ordered: { from ≤ to },
    ghost within: { to ≤ 3 },
}

// How a connection ends by the fault, where `how` is its end by a failure.
fn end_by(fault: LinkFault, how: How) -> How {
    match fault {
        LinkFault::Failed => how,
        LinkFault::Memory => How::Memory,
    }
}

impl Held {
    /// Nothing.
    pub(crate) fn new() -> Held {
        Held {
            bytes: [0; 3],
            from: 0,
            to: 0,
        }
    }

    // Reads what comes next. None, where the connection goes on.
    fn refill<L: Link>(&mut self, link: &mut L, cx: &mut Context<'_>) -> Poll<Option<How>>
        ensures identity { L.identity link.new ≡ L.identity link.old }
        ensures armed { OnPending result (IsArmed cx.new) }
        ensures kept { Keeps cx.old cx.new }
    {
        let mut bytes = [0; 3];
        match link.poll_read(cx, &mut bytes) {
            Poll::Ready(Ok(0)) => Poll::Ready(Some(How::Served)),
            Poll::Ready(Ok(count)) => {
                *self = Held {
                    bytes,
                    from: 0,
                    to: count,
                };
                Poll::Ready(None)
            }
            Poll::Ready(Err(fault)) => Poll::Ready(Some(end_by(fault, How::ReadFault))),
            Poll::Pending => Poll::Pending,
        }
    }

    // Writes some of what is held, which is not nothing.
    fn spend<L: Link>(&mut self, link: &mut L, cx: &mut Context<'_>) -> Poll<Option<How>>
        requires { self.old.from < self.old.to }
        ensures identity { L.identity link.new ≡ L.identity link.old }
        ensures armed { OnPending result (IsArmed cx.new) }
        ensures kept { Keeps cx.old cx.new }
    {
        match link.poll_write(cx, &self.bytes[self.from..self.to]) {
            Poll::Ready(Ok(count)) => {
                self.from += count;
                Poll::Ready(None)
            }
            Poll::Ready(Err(fault)) => Poll::Ready(Some(end_by(fault, How::WriteFault))),
            Poll::Pending => Poll::Pending,
        }
    }

    /// One read, or one write of what is held. None, where the connection goes on.
    pub(crate) fn step<L: Link>(&mut self, link: &mut L, cx: &mut Context<'_>) -> Poll<Option<How>>
        ensures identity { L.identity link.new ≡ L.identity link.old }
        ensures armed { OnPending result (IsArmed cx.new) }
        ensures kept { Keeps cx.old cx.new }
    {
        if self.from < self.to {
            self.spend(link, cx)
        } else {
            self.refill(link, cx)
        }
    }
}
