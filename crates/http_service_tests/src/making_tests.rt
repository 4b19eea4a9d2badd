//! The order in which the parts of a service are made, and in which they are asked.
use crate::making::{First, Moods, first_made, first_ready};
use crate::mood::Mood;
use futures::test::MockTask;
use std::alloc::{AllocError, AllocGlobal, Global};
use std::test::Fail;

// How the expect service, the upgrade service and the service of requests are, and what comes of them.
type Row = (Mood, Mood, Mood, First);

// Whether this comes of each row, where its parts are made so, or else are ready so.
fn come(task: &MockTask, alloc: Global, are_made: bool, rows: &[Row]) -> Result<bool, AllocError> {
    for (expect, upgrade, service, first) in rows {
        let moods = Moods {
            expect: *expect,
            upgrade: *upgrade,
            service: *service,
        };
        let came = if are_made {
            first_made(task, alloc, moods)?
        } else {
            first_ready(task, alloc, moods)?
        };
        if came != *first {
            return Ok(false);
        }
    }
    Ok(true)
}

#[test]
fn parts_are_made_in_the_order_expect_upgrade_service(rt: HostRuntime) -> Result<(), Fail> {
    let rows = [
        (Mood::Fine, Mood::Fine, Mood::Fine, First::Done),
        (Mood::Late, Mood::Late, Mood::Late, First::Done),
        (Mood::Errs, Mood::Errs, Mood::Errs, First::Expect),
        (Mood::Errs, Mood::Late, Mood::Fine, First::Expect),
        (Mood::Late, Mood::Errs, Mood::Errs, First::Upgrade),
        (Mood::Fine, Mood::Errs, Mood::Late, First::Upgrade),
        (Mood::Late, Mood::Late, Mood::Errs, First::Service),
    ];
    let task = MockTask::new(&rt)?;
    assert!(rt; come(&task, rt.alloc(), true, &rows)?);
    Ok(())
}

#[test]
fn parts_are_asked_in_the_order_expect_service_upgrade(rt: HostRuntime) -> Result<(), Fail> {
    let rows = [
        (Mood::Fine, Mood::Fine, Mood::Fine, First::Done),
        (Mood::Errs, Mood::Errs, Mood::Errs, First::Expect),
        (Mood::Late, Mood::Errs, Mood::Errs, First::Waits),
        (Mood::Fine, Mood::Errs, Mood::Errs, First::Service),
        (Mood::Fine, Mood::Errs, Mood::Late, First::Waits),
        (Mood::Fine, Mood::Errs, Mood::Fine, First::Upgrade),
        (Mood::Fine, Mood::Late, Mood::Fine, First::Waits),
    ];
    let task = MockTask::new(&rt)?;
    assert!(rt; come(&task, rt.alloc(), false, &rows)?);
    Ok(())
}
