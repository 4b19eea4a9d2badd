ghost use Rattle.std.specs.Prelude.{◌≡◌, ◌≤◌, length, None};
ghost use Rattle.service_core.specs.declared.peer.Peer.TheVariants.{Local};

use crate::shared::Shared;
use futures::task::{Context, Poll};
use service_core::{Link, LinkFault, Peer};

/// What a link hands over in its life.
const REQUEST: &[u8] = b"GET / HTTP/1.1\r\nHost: a\r\n\r\n";

/// Hands over one request, where the other link is read at the same time: its first read waits for that, and fails where it
/// doesn't come.
#[derive(Drop)]
pub(crate) struct GatedLink {
    shared: Shared,
    number: usize,
    begun: bool,
    taken: usize,
    read_faults: u64,
}

impl GatedLink {
    /// A link that nothing was done with, of this number, 0 or 1.
    pub(crate) fn new(shared: Shared, number: usize) -> GatedLink {
        GatedLink {
            shared,
            number,
            begun: false,
            taken: 0,
            read_faults: 0,
        }
    }

    // Whether the other link is read too. Only the first call waits for it.
    fn is_met(&mut self) -> bool
        ensures taken { self.new.taken ≡ self.old.taken }
        ensures read_faults { self.new.read_faults ≡ self.old.read_faults }
    {
        if self.begun {
            return true;
        }
        self.begun = true;
        self.shared.meet(self.number)
    }
}

// Hands over the bytes from that place on, and tells how many.
fn hand_over(bytes: &[u8], from: usize, buf: &mut [u8]) -> usize
    ensures { result ≤ length buf.new }
{
    let rest = &bytes[bytes.len().min(from)..];
    let n = rest.len().min(buf.len());
    buf[..n].copy_from_slice(&rest[..n]);
    n
}

impl Link for GatedLink {
    ghost identity = { λ _. record { name = None; peer = Local; held = None; read_fails = None; write_fails = None } };

    ghost taken = { λ link. link.taken };

    ghost written = { λ _. None };

    ghost read_faults = { λ link. link.read_faults };

    ghost write_faults = { λ _. 0 };

    ghost read_waits = { λ _. 0 };

    ghost write_waits = { λ _. 0 };

    fn peer(&self) -> Peer {
        Peer::Local
    }

    fn poll_read(
        &mut self,
        _cx: &mut Context<'_>,
        buf: &mut [u8],
    ) -> Poll<Result<usize, LinkFault>> {
        if !self.is_met() {
            self.read_faults = self.read_faults.saturating_add(1);
            return Poll::Ready(Err(LinkFault::Failed));
        }
        let n = hand_over(REQUEST, self.taken, buf);
        self.taken = self.taken.saturating_add(n);
        Poll::Ready(Ok(n))
    }

    fn poll_write(
        &mut self,
        _cx: &mut Context<'_>,
        piece: &[u8],
    ) -> Poll<Result<usize, LinkFault>> {
        let n = piece.len();
        self.shared.add_written(self.number, n as u64);
        Poll::Ready(Ok(n))
    }

    ghost few_faults = { λ _. (tt, tt) };
}
