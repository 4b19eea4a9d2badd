//! The side of who sends to a worker on a thread of its own.
use crate::clerk::Clerk;
use crate::ends::Ends;
use crate::ledger::Ledger;
use futures::task::Queue;
use rtrb::RingBuffer;
use server_jobs::{Running, Spawner};
use server_run::Host;
use std::alloc::{AllocError, Global};
use std::thread::yield_now;

/// A worker on a thread of its own, its rings' other ends, and where each connection is.
pub(crate) struct Side {
    ends: Ends,
    ledger: Ledger,
    running: Running<Clerk>,
}

/// A worker that was started, over a ring with so many places to it, and one back with a place more. None where no thread was started.
pub(crate) fn started<Ho: Host + 'static, Sp: Spawner>(
    rt: &Ho,
    spawner: &mut Sp,
    alloc: Global,
    queue: Queue,
    places: usize,
    ledger: Ledger,
) -> Result<Option<Side>, AllocError> {
    let (parcels, inward) = RingBuffer::new(alloc, places)?;
    let (outward, notes) = RingBuffer::new(alloc, places.saturating_add(1))?;
    let clerk = Clerk {
        queue,
        alloc,
        parcels: inward,
        notes: outward,
    };
    match spawner.start(rt, clerk) {
        Ok(running) => Ok(Some(Side {
            ends: Ends { parcels, notes },
            ledger,
            running,
        })),
        Err(_) => Ok(None),
    }
}

impl Side {
    /// Sends what there is place for, and takes what came. Whether it did something.
    pub(crate) fn go_on<Sp: Spawner>(&mut self, spawner: &mut Sp) -> Result<bool, AllocError> {
        let sent = self.ledger.send(&mut self.ends)?;
        let came = self.ledger.back();
        self.ledger.take(&mut self.ends)?;
        spawner.ring(self.running.number());
        Ok(sent || self.ledger.back() > came)
    }

    /// Whether all came back.
    pub(crate) fn is_done(&self) -> bool {
        self.ledger.is_done()
    }

    // Tells the worker to stop. What comes meanwhile is taken.
    fn stop(&mut self) -> Result<(), AllocError> {
        for _ in 0..1_000_000_u32 {
            if self.ends.stop() {
                return Ok(());
            }
            self.ledger.take(&mut self.ends)?;
            yield_now();
        }
        Ok(())
    }
}

/// Stops the worker, and waits for its thread. Whether all came back as they have to, and it left with nothing.
pub(crate) fn ends_well<Ho: Host>(rt: &Ho, side: Side) -> Result<bool, AllocError> {
    let mut side = side;
    let stopped = side.stop();
    let Side {
        ends: _,
        ledger,
        running,
    } = side;
    let is_left = running.join(rt);
    stopped?;
    Ok(is_left && ledger.is_settled(0)?)
}
