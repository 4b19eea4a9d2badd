//! Workers that are turned by hand, and stopped while they hold connections.
ghost use Rattle.std.specs.Prelude.{IfNone, IfOk};

use crate::ends::Ends;
use crate::kind::Kind;
use crate::plan::PLAIN;
use crate::station::{Ending, LISTENERS, Station, opened, queue_of_one, turn_once};
use crate::trial::Given;
use futures::task::Queue;
use rtrb::RingBuffer;
use server_jobs::{Note, Parcel};
use server_run::Outcome;
use std::alloc::{AllocError, AllocGlobal, Global};
use std::sync::Wait;
use std::test::Fail;

// What becomes of one that waits at a stop.
const RETURNED: Outcome = Outcome::Stopped { forced: false };

// What becomes of one that is served, at a stop that is not graceful.
const FORCED: Outcome = Outcome::Stopped { forced: true };

// Sends a connection. False where the ring has no place.
fn send(
    alloc: Global,
    ends: &mut Ends,
    serial: u64,
    token: usize,
    kind: Kind,
) -> Result<bool, AllocError> {
    let link = kind.link(alloc, serial)?;
    let parcel = Parcel::Conn {
        serial,
        token,
        place: serial,
        link,
    };
    Ok(ends.parcels.push(parcel).is_ok())
}

// Whether the next note says that all services stand.
fn tells_ready(ends: &mut Ends) -> bool {
    matches!(ends.notes.pop(), Ok(Note::Ready))
}

// Whether the next note hands that connection back, with its link, and nothing was written to that.
fn gives_back(ends: &mut Ends, serial: u64, token: usize, outcome: Outcome) -> bool {
    match ends.notes.pop() {
        Ok(Note::Back(entry)) => {
            (entry.serial, entry.token, entry.place) == (serial, token, serial)
                && entry.outcome == outcome
                && entry.link.name() == serial
                && entry.link.written().is_empty()
        }
        _ => false,
    }
}

// One turn, for which memory must not have been refused.
fn turned<W: Wait, S: Station>(
    rt: &W,
    queue: &Queue,
    station: &mut S,
) -> Result<Option<Ending>, AllocError>
    requires { S.goes_on station.old }
    ensures { IfOk result (λ ending. IfNone ending (S.goes_on station.new)) }
{
    let ending = turn_once(rt, queue, None, station);
    if station.was_short() {
        return Err(AllocError);
    }
    Ok(ending)
}

// Whether a graceful stop hands back those that wait and leaves the one that is served, and one that is not graceful hands back that.
fn stops_by_and_by<W: Wait, S: Station>(
    rt: &W,
    alloc: Global,
    queue: &Queue,
    station: &mut S,
    ends: &mut Ends,
) -> Result<bool, AllocError>
    requires { S.goes_on station.old }
{
    let sent = send(alloc, ends, 0, 0, Kind::Silent)?;
    let None = turned(rt, queue, station)? else {
        return Ok(false);
    };
    let is_served = sent && tells_ready(ends) && station.total() == 1;
    let waits = send(alloc, ends, 1, 1, Kind::Whole)?
        && send(alloc, ends, 2, LISTENERS, Kind::Empty)?;
    let told = ends.stop();
    let None = turned(rt, queue, station)? else {
        return Ok(false);
    };
    let returned = gives_back(ends, 1, 1, RETURNED) && gives_back(ends, 2, LISTENERS, RETURNED);
    let is_still_served = station.total() == 1 && ends.notes.is_empty();
    let told_again = ends.stop_by(false);
    let is_left = turned(rt, queue, station)? == Some(Ending::Left(false));
    let forced = gives_back(ends, 0, 0, FORCED) && ends.notes.is_empty();
    let went_on = is_served && waits && told && returned && is_still_served;
    Ok(went_on && told_again && is_left && forced)
}

// Whether a worker to which so many connections came by the turn of its stop hands them back as they came, and leaves.
fn leaves_at_once<W: Wait, S: Station>(
    rt: &W,
    alloc: Global,
    queue: &Queue,
    station: &mut S,
    ends: &mut Ends,
    graceful: bool,
    count: u64,
) -> Result<bool, AllocError>
    requires { S.goes_on station.old }
{
    let mut is_well = true;
    for serial in 0..count {
        is_well &= send(alloc, ends, serial, 0, Kind::Whole)?;
    }
    is_well &= ends.stop_by(graceful);
    is_well &= turned(rt, queue, station)? == Some(Ending::Left(true));
    for serial in 0..count {
        is_well &= gives_back(ends, serial, 0, RETURNED);
    }
    Ok(is_well && ends.notes.is_empty())
}

// Whether a worker is stopped gracefully, and then by force.
fn is_forced<R: Given>(rt: &R) -> Result<bool, AllocError> {
    let alloc = rt.alloc();
    let queue = queue_of_one(rt)?;
    let (parcels, inward) = RingBuffer::new(alloc, 8)?;
    let (outward, notes) = RingBuffer::new(alloc, 8)?;
    let mut ends = Ends { parcels, notes };
    let mut station = opened(alloc, inward, outward, PLAIN)?;
    stops_by_and_by(rt, alloc, &queue, &mut station, &mut ends)
}

#[test]
fn a_graceful_stop_hands_back_those_that_wait_and_force_the_rest(
    rt: HostRuntime,
) -> Result<(), Fail> {
    assert!(rt; is_forced(&rt)?);
    Ok(())
}

// Whether a worker that serves nothing leaves at its stop, and hands back the connections that came with it.
fn is_left<R: Given>(rt: &R, graceful: bool, count: u64) -> Result<bool, AllocError> {
    let alloc = rt.alloc();
    let queue = queue_of_one(rt)?;
    let (parcels, inward) = RingBuffer::new(alloc, 8)?;
    let (outward, notes) = RingBuffer::new(alloc, 8)?;
    let mut ends = Ends { parcels, notes };
    let mut station = opened(alloc, inward, outward, PLAIN)?;
    leaves_at_once(rt, alloc, &queue, &mut station, &mut ends, graceful, count)
}

#[test]
fn a_worker_that_serves_nothing_leaves_by_either_stop(rt: HostRuntime) -> Result<(), Fail> {
    for count in 0..4 {
        assert!(rt; is_left(&rt, true, count)?);
        assert!(rt; is_left(&rt, false, count)?);
    }
    Ok(())
}
