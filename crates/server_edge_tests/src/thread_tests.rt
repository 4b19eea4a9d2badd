//! Jobs on threads of their own.
use crate::lines::{Crossing, cross, lands, started};
use crate::numbered::Numbered;
use server_edge::{ScriptSpawner, ThreadSpawner};
use server_jobs::Spawner;
use server_run::Host;
use std::alloc::{AllocError, AllocGlobal, Global};
use std::test::Fail;

// Whether so many connections go over a ring of eight places to a thread, and come back in their order.
#[tactic(auto, using(crate::proofs::LineSteps::kept_line))]
fn come_back<Ho: Host + 'static, Sp: Spawner>(
    rt: &Ho,
    spawner: &mut Sp,
    alloc: Global,
    count: u64,
) -> Result<bool, AllocError> {
    let mut crossing = Crossing::new(count);
    match started(rt, spawner, alloc, 8)? {
        None => Err(AllocError),
        Some(line) => {
            let mut line = line;
            cross(rt, spawner, alloc, &mut line, &mut crossing);
            Ok(lands(rt, line) && crossing.came == count)
        }
    }
}

#[test]
fn a_thousand_connections_come_back_from_a_thread(rt: HostRuntime) -> Result<(), Fail> {
    let alloc = rt.alloc();
    let mut spawner = ThreadSpawner::new(alloc)?;
    assert!(rt; come_back(&rt, &mut spawner, alloc, 1_000)?);
    Ok(())
}

// Whether those of two threads that run at once come back.
#[tactic(auto, using(crate::proofs::LineSteps::kept_line))]
fn both_come_back<Ho: Host + 'static, Sp: Spawner>(
    rt: &Ho,
    spawner: &mut Sp,
    alloc: Global,
) -> Result<bool, AllocError> {
    let mut crossing = Crossing::new(100);
    match started(rt, spawner, alloc, 1)? {
        None => Err(AllocError),
        Some(line) => {
            let mut line = line;
            let others = come_back(rt, spawner, alloc, 100);
            cross(rt, spawner, alloc, &mut line, &mut crossing);
            Ok(lands(rt, line) && others? && crossing.came == 100)
        }
    }
}

#[test]
fn two_threads_run_at_once(rt: HostRuntime) -> Result<(), Fail> {
    let alloc = rt.alloc();
    let mut spawner = ThreadSpawner::new(alloc)?;
    assert!(rt; both_come_back(&rt, &mut spawner, alloc)?);
    Ok(())
}

// Whether the first start is refused.
fn is_refused<Ho: Host + 'static, Sp: Spawner>(
    rt: &Ho,
    spawner: &mut Sp,
    alloc: Global,
) -> Result<bool, AllocError> {
    match started(rt, spawner, alloc, 1)? {
        None => Ok(true),
        Some(line) => {
            lands(rt, line);
            Ok(false)
        }
    }
}

#[test]
fn a_listed_start_is_refused_and_the_next_is_not(rt: HostRuntime) -> Result<(), Fail> {
    let alloc = rt.alloc();
    let mut spawner = ScriptSpawner::new(alloc, vec![in alloc; 0]?)?;
    assert!(rt; is_refused(&rt, &mut spawner, alloc)?);
    assert!(rt; come_back(&rt, &mut spawner, alloc, 3)?);
    Ok(())
}

// The number that the next job tells of itself, where it is the one that its starter knows. A refused start is want of memory.
fn next_number<Ho: Host + 'static, Sp: Spawner>(
    rt: &Ho,
    spawner: &mut Sp,
) -> Result<Option<usize>, AllocError> {
    let Ok(running) = spawner.start(rt, Numbered) else {
        return Err(AllocError);
    };
    let number = running.number();
    let told = running.join(rt);
    Ok(if told == number { Some(told) } else { None })
}

// Whether the first jobs are told apart by their numbers, from 0 on.
fn are_numbered<Ho: Host + 'static, Sp: Spawner>(
    rt: &Ho,
    spawner: &mut Sp,
) -> Result<bool, AllocError> {
    let first = next_number(rt, spawner)?;
    let second = next_number(rt, spawner)?;
    let third = next_number(rt, spawner)?;
    Ok(first == Some(0) && second == Some(1) && third == Some(2))
}

#[test]
fn jobs_are_numbered_as_they_are_started(rt: HostRuntime) -> Result<(), Fail> {
    let mut spawner = ThreadSpawner::new(rt.alloc())?;
    assert!(rt; are_numbered(&rt, &mut spawner)?);
    Ok(())
}
