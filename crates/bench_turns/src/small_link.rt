//! A link in memory.
ghost use Rattle.std.specs.Prelude.{None};
ghost use Rattle.service_core.specs.declared.peer.Peer.TheVariants.{Local};

use futures::task::{Context, Poll};
use service_core::{Link, LinkFault, Peer};

const REQUEST: &[u8] = b"GET /index.html HTTP/1.1\r\nHost: www.example.com\r\nA: bcde\r\n\r\n";

/// Its peer sends one request and is gone, or sends nothing and stays. What is written is counted, and not kept.
#[derive(Drop)]
pub struct SmallLink {
    // How many bytes of the request are still to be read.
    rest: usize,
    stays: bool,
    taken: u64,
    waits: u64,
    written: u64,
}

impl SmallLink {
    // Gives so many bytes of the request.
    fn of(rest: usize, stays: bool) -> SmallLink {
        SmallLink {
            rest,
            stays,
            taken: 0,
            waits: 0,
            written: 0,
        }
    }

    /// Gives a request, and then the end.
    pub fn asking() -> SmallLink {
        SmallLink::of(REQUEST.len(), false)
    }

    /// Gives nothing, and is never at its end.
    pub fn waiting() -> SmallLink {
        SmallLink::of(0, true)
    }

    /// How many bytes were written.
    pub fn written(&self) -> u64 {
        self.written
    }
}

impl Link for SmallLink {
    ghost identity = { λ _. record { name = None; peer = Local; held = None; read_fails = None; write_fails = None } };

    ghost taken = { λ l. l.taken };

    ghost written = { λ _. None };

    ghost read_faults = { λ _. 0 };

    ghost write_faults = { λ _. 0 };

    ghost read_waits = { λ l. l.waits };

    ghost write_waits = { λ _. 0 };

    fn peer(&self) -> Peer {
        Peer::Local
    }

    fn poll_read(
        &mut self,
        cx: &mut Context<'_>,
        buf: &mut [u8],
    ) -> Poll<Result<usize, LinkFault>> {
        if self.rest == 0 && self.stays {
            self.waits = self.waits.saturating_add(1);
            return cx.yield_now();
        }
        let rest = &REQUEST[REQUEST.len().saturating_sub(self.rest)..];
        let count = rest.len().min(buf.len());
        buf[..count].copy_from_slice(&rest[..count]);
        self.rest = rest.len() - count;
        self.taken = self.taken.saturating_add(count as u64);
        Poll::Ready(Ok(count))
    }

    fn poll_write(
        &mut self,
        _cx: &mut Context<'_>,
        piece: &[u8],
    ) -> Poll<Result<usize, LinkFault>> {
        self.written = self.written.saturating_add(piece.len() as u64);
        Poll::Ready(Ok(piece.len()))
    }

    ghost few_faults = { λ _. (tt, tt) };
}
