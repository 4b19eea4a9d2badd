//! Lines to a ferry: connections go over the ring to it, and come over the ring back.
ghost use Rattle.std.specs.Prelude.{IfOk, IfSome};
ghost use Rattle.server_edge_tests.specs.Lines.{KeepsLine};
ghost use Rattle.server_jobs.specs.Joins.{IsLine};

use crate::ferry::{Ferry, Landed};
use rtrb::{PushError, RingBuffer};
use server_jobs::{Handover, Job, Line, Note, Parcel, Spawner};
use server_run::{Host, MemoryLink};
use service_core::{Link, Peer};
use std::alloc::{AllocError, Global};
use std::thread::{Threads, yield_now};

/// A line to a ferry.
pub(crate) type FerryLine = Line<MemoryLink, Ferry>;

/// A line to a ferry that was started, over rings with so many places. None where no thread was started.
pub(crate) fn started<Ho: Host + 'static, Sp: Spawner>(
    rt: &Ho,
    spawner: &mut Sp,
    alloc: Global,
    places: usize,
) -> Result<Option<FerryLine>, AllocError>
    ensures { IfOk result (λ line. IfSome line (IsLine ⟦<MemoryLink as Link>⟧.identity ⟦<Ferry as Job>⟧.promise ⟦<Landed as Handover<MemoryLink>>⟧.handed)) }
{
    let (parcels, inward) = RingBuffer::new(alloc, places)?;
    let (outward, notes) = RingBuffer::new(alloc, places)?;
    let ferry = Ferry {
        alloc,
        parcels: inward,
        notes: outward,
    };
    match spawner.start(rt, ferry) {
        Ok(running) => Ok(Some(Line {
            parcels,
            notes,
            running,
        })),
        Err(_) => Ok(None),
    }
}

// Puts the parcel on the ring. It comes back where the ring has no place.
fn send(line: &mut FerryLine, parcel: Parcel<MemoryLink>) -> Option<Parcel<MemoryLink>>
    ensures { KeepsLine line.old line.new }
{
    match line.parcels.push(parcel) {
        Ok(()) => None,
        Err(PushError::Full(parcel)) => Some(parcel),
    }
}

// The next note, where one came.
fn take(line: &mut FerryLine) -> Option<Note<MemoryLink>>
    ensures { KeepsLine line.old line.new }
{
    line.notes.pop().ok()
}

/// What was sent over a line, and what came back.
#[derive(Drop)]
pub(crate) struct Crossing {
    /// How many are to go.
    pub(crate) count: u64,
    // How many were taken up, and what of these waits for a place.
    begun: u64,
    waiting: Option<Parcel<MemoryLink>>,
    /// How many came back, each behind the one that went before it.
    pub(crate) came: u64,
}

impl Crossing {
    /// So many are to go.
    pub(crate) fn new(count: u64) -> Crossing {
        Crossing {
            count,
            begun: 0,
            waiting: None,
            came: 0,
        }
    }

    // The next one to go.
    fn next(&mut self, alloc: Global) -> Option<Parcel<MemoryLink>> {
        if let Some(parcel) = self.waiting.take() {
            return Some(parcel);
        }
        if self.begun >= self.count {
            return None;
        }
        let serial = self.begun;
        self.begun += 1;
        Some(Parcel::Conn {
            serial,
            token: 0,
            place: serial,
            link: MemoryLink::new(alloc, serial, Peer::Local, Vec::new(alloc), Vec::new(alloc)),
        })
    }

    // Looks at what came. Whether something did.
    fn arrive(&mut self, note: Option<Note<MemoryLink>>) -> bool {
        match note {
            Some(Note::Back(entry)) => {
                if entry.serial == self.came && entry.link.name() == self.came {
                    self.came = self.came.saturating_add(1);
                }
                true
            }
            _ => false,
        }
    }
}

// Sends the next one, where there is a place, and takes the next one that came. Whether one came.
fn go_on(alloc: Global, line: &mut FerryLine, crossing: &mut Crossing) -> bool
    ensures { KeepsLine line.old line.new }
{
    if let Some(parcel) = crossing.next(alloc) {
        crossing.waiting = send(line, parcel);
    }
    let note = take(line);
    crossing.arrive(note)
}

/// Lets all of them cross, if they do within so many looks, of 10 ms at most.
#[tactic(auto, using(crate::proofs::LineSteps::keeps_none, crate::proofs::LineSteps::keeps_more))]
pub(crate) fn cross<Ho: Host, Sp: Spawner>(
    rt: &Ho,
    spawner: &mut Sp,
    alloc: Global,
    line: &mut FerryLine,
    crossing: &mut Crossing,
)
    ensures { KeepsLine line.old line.new }
{
    for _ in 0..10_000_u32 {
        if crossing.came >= crossing.count {
            return;
        }
        let busy = go_on(alloc, line, crossing);
        spawner.ring(line.running.number());
        spawner.rest(rt, busy);
    }
}

// Tells the ferry to stop. What comes meanwhile is dropped.
#[tactic(auto, using(crate::proofs::LineSteps::keeps_none, crate::proofs::LineSteps::keeps_more))]
fn stop(line: &mut FerryLine)
    ensures { KeepsLine line.old line.new }
{
    for _ in 0..100_000_000_u32 {
        if send(line, Parcel::Stop { graceful: true }).is_none() {
            return;
        }
        drop(take(line));
        yield_now();
    }
}

/// Stops the ferry and waits for its thread. Whether nothing was left with it.
#[tactic(auto, using(crate::proofs::LineSteps::kept_line))]
pub(crate) fn lands<Th: Threads>(rt: &Th, line: FerryLine) -> bool
    requires { IsLine ⟦<MemoryLink as Link>⟧.identity ⟦<Ferry as Job>⟧.promise ⟦<Landed as Handover<MemoryLink>>⟧.handed line }
{
    let mut line = line;
    stop(&mut line);
    let joined = line.join(rt);
    joined.handed.rest.is_empty() && joined.handed.owed.is_empty()
}
