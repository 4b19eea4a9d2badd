//! The side of who starts the job of a worker.
ghost use Rattle.rtrb.specs.Ring.{IsPair};
ghost use Rattle.server_jobs.specs.Jobs.{job_of};
ghost use Rattle.server_jobs.specs.Joins.{IsBalanced};

use crate::books::Books;
use crate::ending::Ending;
use crate::finding::is_right;
use crate::plan::Plan;
use crate::shift::Shift;
use crate::tag::Tag;
use rtrb::{Consumer, Producer, RingBuffer};
use server_edge::ThreadSpawner;
use server_jobs::{Line, Note, Parcel, Running, Spawner};
use server_run::Host;
use service_core::Link;
use std::alloc::{AllocError, Global};
use std::thread::Threads;

/// A job that runs, its rings' other ends, and where each connection is.
pub(crate) struct Side {
    parcels: Producer<Parcel<Tag>>,
    notes: Consumer<Note<Tag>>,
    running: Running<Shift>,
    pub(crate) books: Books,
    ghost to_it: { IsPair parcels (job_of running).parcels },
    ghost from_it: { IsPair (job_of running).notes notes },
    ghost balanced: { IsBalanced ⟦<Tag as Link>⟧.identity (job_of running).parcels (job_of running).notes },
}

/// A job that was started in a thread, over rings of eight places. So many connections are to go to it.
pub(crate) fn started<Ho: Host + 'static>(
    rt: &Ho,
    spawner: &mut ThreadSpawner,
    alloc: Global,
    plan: Plan,
    count: usize,
) -> Result<Side, AllocError> {
    let (parcels, inward) = RingBuffer::new(alloc, 8)?;
    let (outward, notes) = RingBuffer::new(alloc, 8)?;
    let shift = Shift {
        alloc,
        parcels: inward,
        notes: outward,
        plan,
    };
    match spawner.start(rt, shift) {
        Ok(running) => Ok(Side {
            parcels,
            notes,
            running,
            books: Books::new(count),
        }),
        Err(_) => Err(AllocError),
    }
}

impl Side {
    // Puts the parcel on the ring. False where it has no place.
    fn send(&mut self, parcel: Parcel<Tag>) -> bool {
        self.parcels.push(parcel).is_ok()
    }

    // The next note.
    fn take(&mut self) -> Option<Note<Tag>> {
        self.notes.pop().ok()
    }

    /// Tells the job to stop, whose ring has a place.
    pub(crate) fn stop(&mut self) {
        self.send(Parcel::Stop { graceful: true });
    }

    /// Sends what comes next. Whether it went.
    pub(crate) fn send_next(&mut self) -> bool {
        match self.books.next() {
            Some(parcel) => {
                let went = self.send(parcel);
                if went {
                    self.books.count_sent();
                }
                went
            }
            None => false,
        }
    }

    // Takes the next note. Whether one came.
    fn take_next(&mut self) -> bool {
        match self.take() {
            Some(note) => {
                self.books.take(&note);
                true
            }
            None => false,
        }
    }

    /// Sends one parcel, and takes one note. Whether it did something.
    pub(crate) fn go_on(&mut self, spawner: &mut ThreadSpawner) -> bool {
        let sent = self.send_next();
        let took = self.take_next();
        spawner.ring(self.running.number());
        sent || took
    }
}

/// Waits for the end of the job's thread. Whether it ended so, and each connection was found once, where it has to be then.
pub(crate) fn ends_as<Th: Threads>(
    rt: &Th,
    side: Side,
    wanted: Ending,
) -> Result<bool, AllocError> {
    let Side {
        parcels,
        notes,
        running,
        mut books,
    } = side;
    let line = Line {
        parcels,
        notes,
        running,
    };
    let mut found = line.join(rt);
    let is_so = is_right(&mut found, &mut books, wanted);
    drop(found);
    is_so
}
