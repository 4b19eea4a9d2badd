//! The link of the tests.
ghost use Rattle.std.specs.Prelude.{None};
ghost use Rattle.service_core.specs.declared.peer.Peer.TheVariants.{Local};

use futures::task::{Context, Poll};
use service_core::{Link, LinkFault, Peer};

/// A link with a name. It is at its end at once, and takes all bytes.
#[derive(Clone, Copy)]
pub(crate) struct Tag {
    /// Its name.
    pub(crate) name: u64,
}

impl Link for Tag {
    ghost identity = { λ _. record { name = None; peer = Local; held = None; read_fails = None; write_fails = None } };

    ghost taken = { λ _. 0 };

    ghost written = { λ _. None };

    ghost read_faults = { λ _. 0 };

    ghost write_faults = { λ _. 0 };

    ghost read_waits = { λ _. 0 };

    ghost write_waits = { λ _. 0 };

    fn peer(&self) -> Peer {
        Peer::Local
    }

    fn poll_read(
        &mut self,
        _cx: &mut Context<'_>,
        _buf: &mut [u8],
    ) -> Poll<Result<usize, LinkFault>> {
        Poll::Ready(Ok(0))
    }

    fn poll_write(
        &mut self,
        _cx: &mut Context<'_>,
        piece: &[u8],
    ) -> Poll<Result<usize, LinkFault>> {
        Poll::Ready(Ok(piece.len()))
    }

    ghost few_faults = { λ _. (tt, tt) };
}
