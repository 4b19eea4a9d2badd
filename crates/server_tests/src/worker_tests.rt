//! What a worker does about answers, restarts and stops.
use std::test::Fail;
use worker_core::worker_laws::{
    an_available_worker_has_each_service, no_failed_service_is_forgotten,
    one_service_restarts_at_a_time,
};
use worker_core::{ReadyAnswer, ServiceStatus, StopAnswer, WorkerCore, WorkerState};

#[test]
fn a_worker_admits_while_each_service_is_ready(rt: HostRuntime) {
    let mut worker = WorkerCore::new(2);
    assert!(rt; worker.state() == WorkerState::Unavailable);
    worker.ready(0, ReadyAnswer::Ready);
    assert!(rt; !worker.may_admit());
    worker.ready(1, ReadyAnswer::Ready);
    assert!(rt; worker.state() == WorkerState::Available);
    assert!(rt; worker.may_admit());
    worker.ready(0, ReadyAnswer::NotReady);
    assert!(rt; worker.status(0) == ServiceStatus::Unavailable);
    assert!(rt; !worker.may_admit());
}

#[test]
fn a_failed_service_takes_its_turn(rt: HostRuntime) {
    let mut worker = WorkerCore::new(3);
    worker.ready(1, ReadyAnswer::Err);
    worker.ready(2, ReadyAnswer::Err);
    worker.ready(0, ReadyAnswer::Err);
    assert!(rt; worker.state() == WorkerState::Restarting);
    assert!(rt; worker.status(0) == ServiceStatus::Failed);
    worker.restarted(1);
    assert!(rt; worker.status(0) == ServiceStatus::Restarting);
    assert!(rt; worker.status(1) == ServiceStatus::Unavailable);
    assert!(rt; worker.status(2) == ServiceStatus::Failed);
}

#[test]
fn a_stop_waits_for_what_is_left_or_leaves(rt: HostRuntime) {
    let mut worker = WorkerCore::new(2);
    worker.ready(0, ReadyAnswer::Ready);
    assert!(rt; worker.stop(true, 0) == StopAnswer::Leave(true));
    assert!(rt; worker.status(0) == ServiceStatus::Available);
    assert!(rt; worker.stop(true, 3) == StopAnswer::Drain);
    assert!(rt; worker.state() == WorkerState::Draining);
    assert!(rt; worker.status(0) == ServiceStatus::Stopping);
    assert!(rt; worker.status(1) == ServiceStatus::Unavailable);
}

#[test]
fn a_stop_that_is_not_graceful_leaves_connections(rt: HostRuntime) {
    let mut worker = WorkerCore::new(1);
    worker.ready(0, ReadyAnswer::Ready);
    assert!(rt; worker.stop(false, 1) == StopAnswer::Leave(false));
    assert!(rt; worker.status(0) == ServiceStatus::Stopped);
}

#[test]
fn the_laws_of_a_worker_can_be_called() {
    one_service_restarts_at_a_time();
    no_failed_service_is_forgotten();
    an_available_worker_has_each_service();
}
