//! A link for tests.
ghost use Rattle.std.specs.Prelude.{◌≤◌, ◌<◌, None, length};
ghost use Rattle.service_core.specs.declared.peer.Peer.TheVariants.{Local};

use futures::task::{Context, Poll};
use service_core::{Link, LinkFault, Octets, Peer};
use std::alloc::{AllocError, Global};

/// In which pieces a link gives and takes, and when it fails.
#[derive(Clone, Copy)]
pub(crate) struct Way {
    /// The most bytes that one call moves, which are one at least.
    pub(crate) piece: usize,
    /// Whether a call waits once before each piece.
    pub(crate) pauses: bool,
    /// Reads fail once so many bytes were taken.
    pub(crate) most_read: usize,
    /// Writes fail once so many bytes were written.
    pub(crate) most_written: usize,
}

impl Way {
    /// Never fails.
    pub(crate) fn of(piece: usize, pauses: bool) -> Way {
        Way {
            piece,
            pauses,
            most_read: usize::MAX,
            most_written: usize::MAX,
        }
    }

    /// Reads fail once so many bytes were taken.
    pub(crate) fn failing_reads(piece: usize, pauses: bool, most_read: usize) -> Way {
        Way {
            piece,
            pauses,
            most_read,
            most_written: usize::MAX,
        }
    }

    /// Writes fail once so many bytes were written.
    pub(crate) fn failing_writes(piece: usize, pauses: bool, most_written: usize) -> Way {
        Way {
            piece,
            pauses,
            most_read: usize::MAX,
            most_written,
        }
    }
}

/// Gives what it holds, and takes what is written.
#[derive(Drop)]
pub(crate) struct TestLink {
    held: Octets,
    taken: usize,
    written: Octets,
    way: Way,
    has_paused: bool,
    read_faults: u64,
    write_faults: u64,
    read_waits: u64,
    write_waits: u64,
    writes: u64,
    ghost in_range: { taken ≤ length held },
}

impl TestLink {
    /// Holds these bytes.
    pub(crate) fn new(alloc: Global, held: &[u8], way: Way) -> Result<TestLink, AllocError> {
        Ok(TestLink {
            held: Octets::of(alloc, held)?,
            taken: 0,
            written: Octets::new(alloc),
            way,
            has_paused: false,
            read_faults: 0,
            write_faults: 0,
            read_waits: 0,
            write_waits: 0,
            writes: 0,
        })
    }

    /// Whether this was written.
    pub(crate) fn is_written(&self, text: &[u8]) -> bool {
        self.written.as_bytes() == text
    }

    /// How many bytes were taken, and by how many calls bytes were written.
    pub(crate) fn moved(&self) -> (usize, u64) {
        (self.taken, self.writes)
    }

    /// Writes these bytes and all that were not taken.
    pub(crate) fn write_rest(&mut self, unread: &[u8]) -> Result<(), AllocError> {
        self.written.push_all(unread)?;
        self.written.push_all(&self.held.as_bytes()[self.taken..])
    }

    // The most bytes that a call moves, of so many.
    fn piece_of(&self, len: usize) -> usize
        ensures within { result ≤ len }
        ensures moves { 0 < len → 0 < result }
    {
        len.min(self.way.piece.max(1))
    }

    // Whether the call is to wait.
    fn is_pausing(&self) -> bool {
        self.way.pauses && !self.has_paused
    }
}

impl Link for TestLink {
    ghost identity = { λ _. record { name = None; peer = Local; held = None; read_fails = None; write_fails = None } };

    ghost taken = { λ l. l.taken };

    ghost written = { λ _. None };

    ghost read_faults = { λ l. l.read_faults };

    ghost write_faults = { λ l. l.write_faults };

    ghost read_waits = { λ l. l.read_waits };

    ghost write_waits = { λ l. l.write_waits };

    fn peer(&self) -> Peer {
        Peer::Local
    }

    fn poll_read(
        &mut self,
        cx: &mut Context<'_>,
        buf: &mut [u8],
    ) -> Poll<Result<usize, LinkFault>> {
        if self.is_pausing() {
            self.has_paused = true;
            self.read_waits = self.read_waits.saturating_add(1);
            return cx.yield_now();
        }
        self.has_paused = false;
        if self.taken >= self.way.most_read {
            self.read_faults = self.read_faults.saturating_add(1);
            return Poll::Ready(Err(LinkFault::Failed));
        }
        let rest = &self.held.as_bytes()[self.taken..];
        let count = self.piece_of(rest.len().min(buf.len()));
        buf[..count].copy_from_slice(&rest[..count]);
        self.taken += count;
        Poll::Ready(Ok(count))
    }

    fn poll_write(&mut self, cx: &mut Context<'_>, piece: &[u8]) -> Poll<Result<usize, LinkFault>> {
        if self.is_pausing() {
            self.has_paused = true;
            self.write_waits = self.write_waits.saturating_add(1);
            return cx.yield_now();
        }
        self.has_paused = false;
        if self.written.len() >= self.way.most_written {
            self.write_faults = self.write_faults.saturating_add(1);
            return Poll::Ready(Err(LinkFault::Failed));
        }
        let count = self.piece_of(piece.len());
        self.writes = self.writes.saturating_add(1);
        match self.written.push_all(&piece[..count]) {
            Ok(()) => Poll::Ready(Ok(count)),
            Err(_) => Poll::Ready(Err(LinkFault::Memory)),
        }
    }

    ghost few_faults = { λ l. (tt, tt) };
}
