//! Workers on threads of their own.
use crate::side::{Side, ends_well, started};
use crate::station::queue_of_one;
use crate::turn_tests::mixed;
use futures::task::Queue;
use server_edge::ThreadSpawner;
use server_jobs::Spawner;
use server_run::Host;
use std::alloc::{AllocError, AllocGlobal, Global};
use std::test::Fail;

// Sends to both, and takes from both, until all came back, within so many looks of 10 ms at most.
fn serve_both<Ho: Host, Sp: Spawner>(
    rt: &Ho,
    spawner: &mut Sp,
    one: &mut Side,
    two: &mut Side,
) -> Result<(), AllocError> {
    for _ in 0..10_000_u32 {
        if one.is_done() && two.is_done() {
            return Ok(());
        }
        let first = one.go_on(spawner)?;
        let second = two.go_on(spawner)?;
        spawner.rest(rt, first || second);
    }
    Ok(())
}

// Whether all connections of both come back.
fn both_end_well<Ho: Host, Sp: Spawner>(
    rt: &Ho,
    spawner: &mut Sp,
    one: Side,
    two: Side,
) -> Result<bool, AllocError> {
    let mut one = one;
    let mut two = two;
    let served = serve_both(rt, spawner, &mut one, &mut two);
    let first = ends_well(rt, one);
    let second = ends_well(rt, two);
    served?;
    Ok(first? && second?)
}

// A worker that was started over rings of eight places, to which so many connections are to go.
fn side<Ho: Host + 'static, Sp: Spawner>(
    rt: &Ho,
    spawner: &mut Sp,
    alloc: Global,
    queue: Queue,
    count: u32,
) -> Result<Side, AllocError> {
    match started(rt, spawner, alloc, queue, 8, mixed(alloc, count, 0)?)? {
        Some(side) => Ok(side),
        None => Err(AllocError),
    }
}

// Whether so many connections come back from each of two threads.
fn come_back<Ho: Host + 'static, Sp: Spawner>(
    rt: &Ho,
    spawner: &mut Sp,
    alloc: Global,
    queues: (Queue, Queue),
    count: u32,
) -> Result<bool, AllocError> {
    let one = side(rt, spawner, alloc, queues.0, count)?;
    match side(rt, spawner, alloc, queues.1, count) {
        Ok(two) => both_end_well(rt, spawner, one, two),
        Err(error) => {
            ends_well(rt, one)?;
            Err(error)
        }
    }
}

#[test]
fn a_thousand_connections_come_back_from_two_threads(rt: HostRuntime) -> Result<(), Fail> {
    let mut spawner = ThreadSpawner::new(rt.alloc())?;
    let queues = (queue_of_one(&rt)?, queue_of_one(&rt)?);
    assert!(rt; come_back(&rt, &mut spawner, rt.alloc(), queues, 500)?);
    Ok(())
}
