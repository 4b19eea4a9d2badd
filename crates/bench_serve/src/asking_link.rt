//! A link in memory.
ghost use Rattle.std.specs.Prelude.{None};
ghost use Rattle.service_core.specs.declared.peer.Peer.TheVariants.{Local};

use futures::task::{Context, Poll};
use service_core::{Link, LinkFault, Peer};

const REQUEST: &[u8] = b"GET / HTTP/1.1\r\nHost: a\r\n\r\n";

/// Its peer sends so many requests, each at a read of its own, and is gone. What is written is counted, and not kept.
#[derive(Drop)]
pub struct AskingLink {
    // How many requests come behind this one.
    behind: u32,
    // How many bytes of this request are still to be read.
    rest: usize,
    taken: u64,
    written: u64,
}

impl AskingLink {
    /// Gives so many requests, and then the end.
    pub fn new(requests: u32) -> AskingLink {
        AskingLink {
            behind: requests,
            rest: 0,
            taken: 0,
            written: 0,
        }
    }

    /// How many bytes were written.
    pub fn written(&self) -> u64 {
        self.written
    }
}

impl Link for AskingLink {
    ghost identity = { λ _. record { name = None; peer = Local; held = None; read_fails = None; write_fails = None } };

    ghost taken = { λ l. l.taken };

    ghost written = { λ _. None };

    ghost read_faults = { λ _. 0 };

    ghost write_faults = { λ _. 0 };

    ghost read_waits = { λ _. 0 };

    ghost write_waits = { λ _. 0 };

    fn peer(&self) -> Peer {
        Peer::Local
    }

    fn poll_read(
        &mut self,
        _cx: &mut Context<'_>,
        buf: &mut [u8],
    ) -> Poll<Result<usize, LinkFault>> {
        if self.rest == 0 && self.behind > 0 {
            self.behind -= 1;
            self.rest = REQUEST.len();
        }
        let rest = &REQUEST[REQUEST.len().saturating_sub(self.rest)..];
        let count = rest.len().min(buf.len());
        buf[..count].copy_from_slice(&rest[..count]);
        self.rest = rest.len() - count;
        self.taken = self.taken.saturating_add(count as u64);
        Poll::Ready(Ok(count))
    }

    fn poll_write(
        &mut self,
        _cx: &mut Context<'_>,
        piece: &[u8],
    ) -> Poll<Result<usize, LinkFault>> {
        self.written = self.written.saturating_add(piece.len() as u64);
        Poll::Ready(Ok(piece.len()))
    }

    ghost few_faults = { λ _. (tt, tt) };
}
