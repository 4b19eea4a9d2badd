ghost use Rattle.std.specs.Prelude.{None};
ghost use Rattle.service_core.specs.declared.peer.Peer.TheVariants.{Local};

use futures::task::{Context, Poll};
use service_core::{Link, LinkFault, Peer};
use std::sync::Arc;
use std::sync::atomic::AtomicUsize;
use std::sync::atomic::Ordering::SeqCst;

/// Nothing comes over it. It tells the slot of its news, and adds its weight to what is counted at each read.
#[derive(Drop)]
pub(crate) struct QuietLink {
    slot: u32,
    weight: usize,
    count: Arc<AtomicUsize>,
    waits: u64,
}

impl QuietLink {
    /// It was not read yet.
    pub(crate) fn new(slot: u32, weight: usize, count: Arc<AtomicUsize>) -> QuietLink {
        QuietLink {
            slot,
            weight,
            count,
            waits: 0,
        }
    }
}

impl Link for QuietLink {
    ghost identity = { λ _. record { name = None; peer = Local; held = None; read_fails = None; write_fails = None } };

    ghost taken = { λ _. 0 };

    ghost written = { λ _. None };

    ghost read_faults = { λ _. 0 };

    ghost write_faults = { λ _. 0 };

    ghost read_waits = { λ l. l.waits };

    ghost write_waits = { λ _. 0 };

    fn peer(&self) -> Peer {
        Peer::Local
    }

    fn poll_read(
        &mut self,
        cx: &mut Context<'_>,
        _buf: &mut [u8],
    ) -> Poll<Result<usize, LinkFault>> {
        self.count.fetch_add(self.weight, SeqCst);
        self.waits = self.waits.saturating_add(1);
        cx.yield_now()
    }

    fn poll_write(
        &mut self,
        _cx: &mut Context<'_>,
        piece: &[u8],
    ) -> Poll<Result<usize, LinkFault>> {
        Poll::Ready(Ok(piece.len()))
    }

    fn waits_for(&self) -> Option<u32> {
        Some(self.slot)
    }

    ghost few_faults = { λ _. (tt, tt) };
}
