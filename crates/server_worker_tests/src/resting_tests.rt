//! Which live connections a turn polls.
use crate::plan::PLAIN;
use crate::quiet_link::QuietLink;
use crate::station::{Station, opened, queue_of_one, turn_once};
use crate::trial::Given;
use futures::task::Queue;
use rtrb::{Producer, RingBuffer};
use server_jobs::Parcel;
use std::alloc::{AllocError, AllocGlobal, Global};
use std::sync::atomic::AtomicUsize;
use std::sync::atomic::Ordering::SeqCst;
use std::sync::{Arc, Wait};
use std::test::Fail;

/// A turn.
#[derive(Clone, Copy)]
struct Turn {
    /// The connections that come before it: the slot and the weight of each.
    comes: &'static [(u32, usize)],
    /// Whether a graceful stop comes then.
    stops: bool,
    /// The slots of which there is news, or none where all are polled.
    news: Option<&'static [u32]>,
    /// The weight of all that is read in it.
    reads: usize,
}

// A turn over all, before which these connections come.
fn all(comes: &'static [(u32, usize)], reads: usize) -> Turn {
    Turn {
        comes,
        stops: false,
        news: None,
        reads,
    }
}

// A turn with news of these slots.
fn told(news: &'static [u32], reads: usize) -> Turn {
    Turn {
        comes: &[],
        stops: false,
        news: Some(news),
        reads,
    }
}

// Sends a link to the worker.
fn send(
    alloc: Global,
    parcels: &mut Producer<Parcel<QuietLink>>,
    count: &Arc<AtomicUsize>,
    slot: u32,
    weight: usize,
) -> Result<bool, AllocError> {
    let link = QuietLink::new(slot, weight, Arc::try_clone(count)?);
    let parcel = Parcel::Conn {
        serial: weight as u64,
        token: 0,
        place: weight as u64,
        link,
    };
    Ok(parcels.push(parcel).is_ok())
}

// Sends what comes before the turn. False where the ring has no place.
fn prepare(
    alloc: Global,
    parcels: &mut Producer<Parcel<QuietLink>>,
    count: &Arc<AtomicUsize>,
    turn: &Turn,
) -> Result<bool, AllocError> {
    for (slot, weight) in turn.comes {
        if !send(alloc, parcels, count, *slot, *weight)? {
            return Ok(false);
        }
    }
    Ok(!turn.stops || parcels.push(Parcel::Stop { graceful: true }).is_ok())
}

// Whether the worker reads so in each of the turns, and goes on.
fn goes_so<W: Wait, S: Station>(
    rt: &W,
    alloc: Global,
    queue: &Queue,
    station: &mut S,
    parcels: &mut Producer<Parcel<QuietLink>>,
    count: &Arc<AtomicUsize>,
    turns: &[Turn],
) -> Result<bool, AllocError>
    requires { S.goes_on station.old }
{
    for turn in turns {
        if !prepare(alloc, parcels, count, turn)? {
            return Ok(false);
        }
        if turn_once(rt, queue, turn.news, station).is_some() {
            return Ok(false);
        }
        let read = count.swap(0, SeqCst);
        // (what it leaves in the ring to it found no memory; one for whose berth memory lacked does not rest, and is read too)
        if station.was_short() || read > turn.reads {
            return Err(AllocError);
        }
        if read < turn.reads {
            return Ok(false);
        }
    }
    Ok(true)
}

// Whether a worker of plain services reads so.
fn reads_so<R: Given>(rt: &R, turns: &[Turn]) -> Result<bool, AllocError> {
    let alloc = rt.alloc();
    let queue = queue_of_one(rt)?;
    let (mut parcels, inward) = RingBuffer::new(alloc, 16)?;
    let (outward, _notes) = RingBuffer::new(alloc, 16)?;
    let count = Arc::new(alloc, AtomicUsize::new(0))?;
    let mut station = opened(alloc, inward, outward, PLAIN)?;
    goes_so(rt, alloc, &queue, &mut station, &mut parcels, &count, turns)
}

#[test]
fn one_that_rests_is_polled_where_its_slot_has_news(rt: HostRuntime) -> Result<(), Fail> {
    let turns = [
        all(&[(7, 1), (8, 10), (9, 100)], 111),
        told(&[], 0),
        told(&[8], 10),
        told(&[9, 8], 110),
        told(&[7, 7, 6], 1),
        all(&[], 111),
    ];
    assert!(rt; reads_so(&rt, &turns)?);
    Ok(())
}

#[test]
fn one_that_comes_is_polled_without_news(rt: HostRuntime) -> Result<(), Fail> {
    let comes = Turn {
        comes: &[(3, 10)],
        ..told(&[], 10)
    };
    assert!(rt;
        reads_so(
            &rt,
            &[all(&[(2, 1)], 1), comes, told(&[], 0), told(&[3], 10)]
        )?
    );
    Ok(())
}

#[test]
fn of_two_with_one_slot_one_alone_rests(rt: HostRuntime) -> Result<(), Fail> {
    let turns = [
        all(&[(7, 1), (7, 1)], 2),
        told(&[], 1),
        told(&[], 1),
        told(&[7], 2),
    ];
    assert!(rt; reads_so(&rt, &turns)?);
    Ok(())
}

#[test]
fn after_a_stop_all_that_is_live_is_polled(rt: HostRuntime) -> Result<(), Fail> {
    let stops = Turn {
        stops: true,
        ..told(&[], 11)
    };
    assert!(rt;
        reads_so(
            &rt,
            &[
                all(&[(7, 1), (8, 10)], 11),
                told(&[], 0),
                stops,
                told(&[], 11)
            ]
        )?
    );
    Ok(())
}
