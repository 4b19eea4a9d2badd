//! A link in memory.
ghost use Rattle.std.specs.Prelude.{◌≤◌, None, length};
ghost use Rattle.service_core.specs.declared.peer.Peer.TheVariants.{Local};

use futures::task::{Context, Poll};
use service_core::{Link, LinkFault, Octets, Peer};

/// Its peer sends a front once, and then the same bytes so many times, each time once all were read that it sent before. What
/// is written is counted, and not kept.
#[derive(Drop)]
pub struct FlightLink {
    front: Octets,
    flight: Octets,
    // How many bytes of the flight were read, how many flights are still to come, and how many bytes were read in all.
    place: usize,
    rest: u64,
    taken: u64,
    written: u64,
    ghost in_range: { place ≤ length flight },
}

impl FlightLink {
    /// Gives the front, and these bytes so many times.
    pub fn new(front: Octets, flight: Octets, times: u64) -> FlightLink {
        FlightLink {
            front,
            place: flight.len(),
            flight,
            rest: times,
            taken: 0,
            written: 0,
        }
    }

    /// How many bytes were written.
    pub fn written(&self) -> u64 {
        self.written
    }
}

impl Link for FlightLink {
    ghost identity = { λ _. record { name = None; peer = Local; held = None; read_fails = None; write_fails = None } };

    ghost taken = { λ l. l.taken };

    ghost written = { λ _. None };

    ghost read_faults = { λ _. 0 };

    ghost write_faults = { λ _. 0 };

    ghost read_waits = { λ _. 0 };

    ghost write_waits = { λ _. 0 };

    fn peer(&self) -> Peer {
        Peer::Local
    }

    fn poll_read(
        &mut self,
        _cx: &mut Context<'_>,
        buf: &mut [u8],
    ) -> Poll<Result<usize, LinkFault>> {
        if self.front.len() > 0 {
            let count = self.front.len().min(buf.len());
            buf[..count].copy_from_slice(&self.front.as_bytes()[..count]);
            self.front.drop_front(count);
            self.taken = self.taken.saturating_add(count as u64);
            return Poll::Ready(Ok(count));
        }
        if self.place == self.flight.len() && self.rest > 0 {
            self.rest -= 1;
            self.place = 0;
        }
        let rest = &self.flight.as_bytes()[self.place..];
        let count = rest.len().min(buf.len());
        buf[..count].copy_from_slice(&rest[..count]);
        self.place += count;
        self.taken = self.taken.saturating_add(count as u64);
        Poll::Ready(Ok(count))
    }

    fn poll_write(
        &mut self,
        _cx: &mut Context<'_>,
        piece: &[u8],
    ) -> Poll<Result<usize, LinkFault>> {
        self.written = self.written.saturating_add(piece.len() as u64);
        Poll::Ready(Ok(piece.len()))
    }

    ghost few_faults = { λ _. (tt, tt) };
}
