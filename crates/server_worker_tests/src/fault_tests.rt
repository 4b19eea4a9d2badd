//! Workers whose services err in their readiness, turned by hand.
use crate::kind::Kind;
use crate::plan::{PLAIN, Plan};
use crate::station::Ending;
use crate::trial::Given;
use crate::turn_tests::{alike, are_served_from, comes_to, mixed, of};
use std::alloc::{AllocError, AllocGlobal};
use std::test::Fail;

// The services of so many tokens err at their first ask, and are made anew.
fn erring(count: usize, waits: usize) -> Plan {
    Plan {
        waits,
        erring: count,
        ..PLAIN
    }
}

#[test]
fn services_that_err_are_made_anew_and_serve(rt: HostRuntime) -> Result<(), Fail> {
    assert!(rt; are_served_from(&rt, erring(1, 0), 0, 2)?);
    assert!(rt; are_served_from(&rt, erring(3, 0), 0, 2)?);
    Ok(())
}

// The services stand at the third turn, and err. One is made anew at the fourth turn, the next at the fifth, and the last, whose making
// waits twice, at the seventh.
#[test]
fn services_that_err_are_made_anew_one_after_the_other(rt: HostRuntime) -> Result<(), Fail> {
    assert!(rt; are_served_from(&rt, erring(3, 1), 2, 7)?);
    Ok(())
}

// Whether all connections come back where services err while some are served.
fn all_come_back<Ho: Given>(rt: &Ho) -> Result<bool, AllocError> {
    let plan = Plan {
        waits: 2,
        erring: 2,
        asks: 5,
        ..PLAIN
    };
    let mut ledger = mixed(rt.alloc(), 60, 4)?;
    comes_to(rt, of(plan, 40), &mut ledger, Some(Ending::Left(true)), 0)
}

#[test]
fn what_is_served_goes_on_while_a_service_is_made_anew(rt: HostRuntime) -> Result<(), Fail> {
    assert!(rt; all_come_back(&rt)?);
    Ok(())
}

// Whether the worker ends by the first of two services that err and can't be made anew, at the turn behind their fourth ask, and has
// what it had.
fn ends_by_a_fault<Ho: Given>(rt: &Ho) -> Result<bool, AllocError> {
    let plan = Plan {
        erring: 2,
        asks: 3,
        refuses_anew: true,
        ..PLAIN
    };
    let faulted = Ending::Faulted {
        token: 0,
        erred: 0,
        named: 0,
    };
    let mut ledger = alike(rt.alloc(), 4, 2, Kind::Silent)?;
    let is_faulted = comes_to(rt, of(plan, 90), &mut ledger, Some(faulted), 4)?;
    Ok(is_faulted && ledger.ready == Some(0) && ledger.turn == 4)
}

#[test]
fn a_worker_whose_service_cannot_be_made_anew_ends_by_a_fault(rt: HostRuntime) -> Result<(), Fail> {
    assert!(rt; ends_by_a_fault(&rt)?);
    Ok(())
}
