//! The services of a worker, and what it does about each answer, restart and stop.
ghost use Rattle.std.specs.Prelude.{◌≡◌, ◌<◌, ◌≤◌, ◌↔◌, IsTrue, length, map, position, replicate};
ghost use Rattle.std.specs.List.{list_all, list_any};
ghost use Rattle.worker_core.specs.Statuses.{is_available, is_failed, is_restarting};
ghost use Rattle.worker_core.specs.WorkerCore.{MayAsk, MayRestart, after_ready, after_restarted, after_stop, answer_status, failure_status, new_worker, state_of, status_of, stop_answer, with_available};
ghost use Rattle.worker_core.specs.declared.service_status.ServiceStatus.TheVariants as status;
ghost use Rattle.worker_core.specs.declared.worker_state.WorkerState.TheVariants as state;

use crate::ready_answer::ReadyAnswer;
use crate::service_status::ServiceStatus;
use crate::stop_answer::StopAnswer;
use crate::worker_state::WorkerState;
use arrayvec::ArrayVec;
use std::marker::Model;

// The services of a new worker.
fn new_services(listeners: usize) -> ArrayVec<ServiceStatus, 64>
    requires { listeners ≤ 64 }
    ensures { result.items ≡ replicate listeners status.Unavailable }
{
    let mut services = ArrayVec::new();
    for token in 0..listeners {
        services.push(ServiceStatus::Unavailable);
    }
    services
}

// Gives each available service this status.
fn replace_available(services: &mut [ServiceStatus], status: ServiceStatus)
    ensures { services.new ≡ with_available status services.old }
{
    for service in services.iter_mut() {
        if service.is_available() {
            *service = status;
        }
    }
}

// Whether a service is being made again.
fn any_restarting(services: &[ServiceStatus]) -> bool
    ensures { result ≡ list_any is_restarting services.now }
{
    services.iter().any(|service| service.is_restarting())
}

// Whether each service is available.
fn all_available(services: &[ServiceStatus]) -> bool
    ensures { result ≡ list_all is_available services.now }
{
    services.iter().all(|service| service.is_available())
}

// The lowest token of a service that failed.
fn first_failed(services: &[ServiceStatus]) -> Option<usize>
    ensures { result ≡ position is_failed services.now }
{
    services.iter().position(|service| service.is_failed())
}

/// The state of an `actix-server` `ServerWorker`, and the status of each of its services, by token.
#[derive(Drop)]
pub struct WorkerCore {
    services: ArrayVec<ServiceStatus, 64>,
    draining: bool,
    left: bool,
}

impl Model for WorkerCore {
    ghost use Rattle.worker_core.specs.WorkerCore.{IsKept, Worker};

    ghost Value = { Worker };

    ghost view = { λ c. record { services = c.services.items; draining = c.draining; left = c.left } };

    ghost invariant = { λ c. IsKept c.services.items };
}

impl WorkerCore {
    /// A worker of that many services, of which none is ready yet.
    pub fn new(listeners: usize) -> WorkerCore
        requires some { 0 < listeners }
        requires fits { listeners ≤ 64 }
        ensures { result ≡ new_worker listeners }
    {
        WorkerCore {
            services: new_services(listeners),
            draining: false,
            left: false,
        }
    }

    /// What the worker does.
    pub fn state(&self) -> WorkerState
        ensures { result ≡ state_of self.now }
    {
        if self.draining {
            WorkerState::Draining
        } else if any_restarting(self.services.as_slice()) {
            WorkerState::Restarting
        } else if all_available(self.services.as_slice()) {
            WorkerState::Available
        } else {
            WorkerState::Unavailable
        }
    }

    /// Where the service of a token stands.
    pub fn status(&self, token: usize) -> ServiceStatus
        requires { token < length self.now.services }
        ensures { result ≡ status_of self.now token }
    {
        self.services[token]
    }

    /// Takes a service's answer to a readiness check.
    pub fn ready(&mut self, token: usize, answer: ReadyAnswer)
        requires { MayAsk self.old token }
        ensures after { self.new ≡ after_ready self.old token answer }
        ensures listeners { length self.new.services ≡ length self.old.services }
    {
        let status = self.answer_status(answer);
        self.services[token] = status;
    }

    /// Takes a service that was made again, and starts on the next one that failed.
    pub fn restarted(&mut self, token: usize)
        requires { MayRestart self.old token }
        ensures after { self.new ≡ after_restarted self.old token }
        ensures listeners { length self.new.services ≡ length self.old.services }
    {
        self.services[token] = ServiceStatus::Unavailable;
        if let Some(next) = first_failed(self.services.as_slice()) {
            self.services[next] = ServiceStatus::Restarting;
        }
    }

    /// Whether the worker may admit a connection.
    pub fn may_admit(&self) -> bool
        ensures { IsTrue result ↔ (state_of self.now ≡ state.Available) }
    {
        matches!(self.state(), WorkerState::Available)
    }

    /// Stops the worker, of whose connections `total` are left.
    pub fn stop(&mut self, graceful: bool, total: u64) -> StopAnswer
        ensures answer { result ≡ stop_answer graceful total }
        ensures after { self.new ≡ after_stop self.old result }
        ensures listeners { length self.new.services ≡ length self.old.services }
    {
        if total == 0 {
            return StopAnswer::Leave(true);
        }
        if graceful {
            replace_available(self.services.as_mut_slice(), ServiceStatus::Stopping);
            self.draining = true;
            return StopAnswer::Drain;
        }
        replace_available(self.services.as_mut_slice(), ServiceStatus::Stopped);
        self.left = true;
        StopAnswer::Leave(false)
    }

    // The status that a service gets by its answer.
    fn answer_status(&self, answer: ReadyAnswer) -> ServiceStatus
        ensures { result ≡ answer_status self.now answer }
    {
        match answer {
            ReadyAnswer::Ready => ServiceStatus::Available,
            ReadyAnswer::NotReady => ServiceStatus::Unavailable,
            ReadyAnswer::Err => self.failure_status(),
        }
    }

    // The status of a service that failed: one at a time is made again.
    fn failure_status(&self) -> ServiceStatus
        ensures { result ≡ failure_status self.now }
    {
        if any_restarting(self.services.as_slice()) {
            ServiceStatus::Failed
        } else {
            ServiceStatus::Restarting
        }
    }
}
