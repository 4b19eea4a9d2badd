//! Workers that are turned by hand.
use crate::ends::Ends;
use crate::ledger::Ledger;
use crate::plan::Plan;
use crate::station::{Ending, Station, opened, queue_of_one, turn_once};
use futures::task::Queue;
use rtrb::RingBuffer;
use std::alloc::{AllocError, AllocGlobal};
use std::random::RandomSource;
use std::sync::Wait;

/// What a test by hand takes of the system.
pub(crate) trait Given: Wait + AllocGlobal + RandomSource {}

impl<R: Wait + AllocGlobal + RandomSource> Given for R {}

/// A worker, and how it is turned.
#[derive(Clone, Copy)]
pub(crate) struct Trial {
    /// What its services are like.
    pub(crate) plan: Plan,
    /// How many places the ring to it has.
    pub(crate) inward: usize,
    /// How many places the ring back has, beside the one for the note of a fault.
    pub(crate) outward: usize,
    /// Before which turn it is told to stop.
    pub(crate) stop: Option<u32>,
    /// How many turns there are at most.
    pub(crate) turns: u32,
}

// Sends what is due before the turn.
fn prepare(
    trial: &Trial,
    turn: u32,
    ends: &mut Ends,
    ledger: &mut Ledger,
) -> Result<(), AllocError> {
    ledger.turn = turn;
    ledger.send(ends)?;
    if trial.stop == Some(turn) {
        let told = ends.stop();
        ledger.confirm(told);
    }
    Ok(())
}

// Turns a worker until it ends, or for so many turns.
fn turn_all<W: Wait, S: Station>(
    rt: &W,
    queue: &Queue,
    trial: &Trial,
    station: &mut S,
    ends: &mut Ends,
    ledger: &mut Ledger,
) -> Result<Option<Ending>, AllocError>
    requires { S.goes_on station.old }
{
    for turn in 0..trial.turns {
        prepare(trial, turn, ends, ledger)?;
        let ending = turn_once(rt, queue, None, station);
        // (what it leaves in the ring to it found no memory)
        if station.was_short() || ends.parcels.slots() < trial.inward {
            return Err(AllocError);
        }
        let is_full = ledger.take(ends)?;
        ledger.weigh(station.total(), is_full);
        if ending.is_some() {
            return Ok(ending);
        }
    }
    Ok(None)
}

/// How the worker ends, if it does.
pub(crate) fn ending<R: Given>(
    rt: &R,
    trial: Trial,
    ledger: &mut Ledger,
) -> Result<Option<Ending>, AllocError> {
    let alloc = rt.alloc();
    let queue = queue_of_one(rt)?;
    let (parcels, inward) = RingBuffer::new(alloc, trial.inward)?;
    let (outward, notes) = RingBuffer::new(alloc, trial.outward.saturating_add(1))?;
    let mut ends = Ends { parcels, notes };
    let mut station = opened(alloc, inward, outward, trial.plan)?;
    turn_all(rt, &queue, &trial, &mut station, &mut ends, ledger)
}
