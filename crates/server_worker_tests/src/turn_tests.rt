//! Workers that are turned by hand, against a list that says where each connection is.
use crate::kind::{KINDS, Kind};
use crate::ledger::Ledger;
use crate::plan::{PLAIN, Plan};
use crate::station::{Ending, LISTENERS};
use crate::trial::{Given, Trial, ending};
use std::alloc::{AllocError, AllocGlobal, Global};
use std::test::Fail;

// What a worker comes to that is left with nothing.
const LEFT: Option<Ending> = Some(Ending::Left(true));

/// How a worker of such services is turned, over large rings, that is stopped before that turn.
pub(crate) fn of(plan: Plan, stop: u32) -> Trial {
    Trial {
        plan,
        inward: 256,
        outward: 256,
        stop: Some(stop),
        turns: 100,
    }
}

/// So many connections of all kinds and listeners, of which so many are sent before each turn, or all before the first.
pub(crate) fn mixed(alloc: Global, count: u32, a_turn: u32) -> Result<Ledger, AllocError> {
    let mut ledger = Ledger::new(alloc);
    for at in 0..count {
        let round = at as usize / KINDS.len();
        let token = (at as usize + round) % LISTENERS;
        let due = at.checked_div(a_turn).unwrap_or(0);
        ledger.add(token, KINDS[at as usize % KINDS.len()], due)?;
    }
    Ok(ledger)
}

/// So many connections of one kind and one token, which are sent before the first turn.
pub(crate) fn alike(
    alloc: Global,
    count: u32,
    token: usize,
    kind: Kind,
) -> Result<Ledger, AllocError> {
    let mut ledger = Ledger::new(alloc);
    for _ in 0..count {
        ledger.add(token, kind, 0)?;
    }
    Ok(ledger)
}

/// Whether the worker comes to this, and all came back but for so many.
pub(crate) fn comes_to<R: Given>(
    rt: &R,
    trial: Trial,
    ledger: &mut Ledger,
    wanted: Option<Ending>,
    stayed: usize,
) -> Result<bool, AllocError> {
    let came = ending(rt, trial, ledger)?;
    Ok(ledger.is_settled(stayed)? && came == wanted)
}

#[test]
fn each_connection_comes_back_once_with_its_own_link(rt: HostRuntime) -> Result<(), Fail> {
    let mut ledger = mixed(rt.alloc(), 60, 4)?;
    let trial = Trial {
        inward: 8,
        ..of(PLAIN, 16)
    };
    assert!(rt; comes_to(&rt, trial, &mut ledger, LEFT, 0)?);
    Ok(())
}

// Whether so many links that give each byte alone are polled once a turn: four reads, four writes, and the end.
fn go_side_by_side<R: Given>(rt: &R, count: u32) -> Result<bool, AllocError> {
    let mut ledger = alike(rt.alloc(), count, 0, Kind::Bytewise)?;
    let is_left = comes_to(rt, of(PLAIN, 1), &mut ledger, LEFT, 0)?;
    Ok(is_left && ledger.first() == Some(8) && ledger.last() == Some(8))
}

#[test]
fn two_hundred_links_are_served_side_by_side_byte_by_byte(rt: HostRuntime) -> Result<(), Fail> {
    assert!(rt; go_side_by_side(&rt, 200)?);
    Ok(())
}

// Whether the worker ends by the refusal of the token's service, at the turn of that, and tells of nothing.
fn is_named<R: Given>(rt: &R, token: usize) -> Result<bool, AllocError> {
    let plan = Plan {
        waits: 1,
        refused: Some(token),
        ..PLAIN
    };
    let refused = Some(Ending::Unstarted {
        token,
        named: token,
    });
    let mut ledger = mixed(rt.alloc(), 6, 0)?;
    let is_refused = comes_to(rt, of(plan, 90), &mut ledger, refused, 6)?;
    Ok(is_refused && ledger.ready.is_none() && ledger.turn as usize == token)
}

#[test]
fn a_worker_names_the_token_that_is_refused(rt: HostRuntime) -> Result<(), Fail> {
    for token in 0..LISTENERS {
        assert!(rt; is_named(&rt, token)?);
    }
    Ok(())
}

/// Whether all services stand at the turn `ready`, and none was served before the turn `first`.
pub(crate) fn are_served_from<R: Given>(
    rt: &R,
    plan: Plan,
    ready: u32,
    first: u32,
) -> Result<bool, AllocError> {
    let mut ledger = mixed(rt.alloc(), 30, 0)?;
    let is_left = comes_to(rt, of(plan, 10), &mut ledger, LEFT, 0)?;
    Ok(is_left && ledger.ready == Some(ready) && ledger.first() == Some(first))
}

#[test]
fn none_is_served_before_all_services_stand(rt: HostRuntime) -> Result<(), Fail> {
    let slow = Plan { waits: 3, ..PLAIN };
    assert!(rt; are_served_from(&rt, slow, 6, 6)?);
    Ok(())
}

#[test]
fn none_is_admitted_while_one_service_is_not_ready(rt: HostRuntime) -> Result<(), Fail> {
    let busy = Plan {
        unready: 5,
        ..PLAIN
    };
    assert!(rt; are_served_from(&rt, busy, 0, 5)?);
    Ok(())
}

// The order in which connections come back over a ring of so many places.
fn order<R: Given>(rt: &R, outward: usize) -> Result<Option<Ledger>, AllocError> {
    let mut ledger = mixed(rt.alloc(), 24, 0)?;
    let trial = Trial {
        outward,
        ..of(PLAIN, 60)
    };
    let is_left = comes_to(rt, trial, &mut ledger, LEFT, 0)?;
    Ok(if is_left { Some(ledger) } else { None })
}

// Whether they come one by one over a ring of one place, in the order in which they come over a large one.
fn keep_their_order<R: Given>(rt: &R) -> Result<bool, AllocError> {
    match (order(rt, 256)?, order(rt, 1)?) {
        (Some(wide), Some(narrow)) => {
            Ok(wide.is_in_order_of(&narrow) && narrow.last() == Some(24))
        }
        _ => Ok(false),
    }
}

#[test]
fn notes_wait_for_a_place_and_keep_their_order(rt: HostRuntime) -> Result<(), Fail> {
    assert!(rt; keep_their_order(&rt)?);
    Ok(())
}

#[test]
fn a_connection_of_no_listener_stays(rt: HostRuntime) -> Result<(), Fail> {
    let mut ledger = mixed(rt.alloc(), 6, 0)?;
    ledger.add(LISTENERS, Kind::Whole, 1)?;
    ledger.add(usize::MAX, Kind::Empty, 1)?;
    let trial = Trial {
        stop: None,
        ..of(PLAIN, 0)
    };
    assert!(rt; comes_to(&rt, trial, &mut ledger, None, 2)?);
    Ok(())
}

#[test]
fn a_link_that_never_answers_holds_up_no_other(rt: HostRuntime) -> Result<(), Fail> {
    let mut ledger = mixed(rt.alloc(), 6, 0)?;
    ledger.add(0, Kind::Silent, 0)?;
    ledger.add(0, Kind::Bytewise, 1)?;
    assert!(rt; comes_to(&rt, of(PLAIN, 30), &mut ledger, None, 1)?);
    Ok(())
}

// Whether a worker that holds nothing leaves at the turn of its stop, though not all its services stand.
fn leaves_at_once<R: Given>(rt: &R, stop: u32) -> Result<bool, AllocError> {
    let slow = Plan { waits: 1, ..PLAIN };
    let mut ledger = Ledger::new(rt.alloc());
    let is_left = comes_to(rt, of(slow, stop), &mut ledger, LEFT, 0)?;
    Ok(is_left && ledger.turn == stop && ledger.ready.is_some() == (stop >= 3))
}

#[test]
fn a_stop_with_nothing_held_is_left_at_once(rt: HostRuntime) -> Result<(), Fail> {
    for stop in 0..4 {
        assert!(rt; leaves_at_once(&rt, stop)?);
    }
    Ok(())
}

// Whether a worker that is stopped leaves at the turn at which its last connection ends.
fn leaves_behind_the_last<R: Given>(rt: &R, kind: Kind, stop: u32) -> Result<bool, AllocError> {
    let mut ledger = alike(rt.alloc(), 3, 1, kind)?;
    let is_left = comes_to(rt, of(PLAIN, stop), &mut ledger, LEFT, 0)?;
    Ok(is_left && stop < ledger.turn && ledger.last() == Some(ledger.turn))
}

#[test]
fn a_stop_waits_for_what_is_live(rt: HostRuntime) -> Result<(), Fail> {
    for stop in 1..4 {
        assert!(rt; leaves_behind_the_last(&rt, Kind::Waiting, stop)?);
        assert!(rt; leaves_behind_the_last(&rt, Kind::Bytewise, stop)?);
    }
    Ok(())
}
