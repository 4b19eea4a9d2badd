//! A policy's refusal that comes in other words.
use crate::building::Call::{self, Origin};
use crate::building::built;
use crate::inner::Inner;
use crate::shown::{hold, not};
use cors_answer::{Cors, CorsInitError};
use cors_policy::{ConfigError, NoRule};
use futures::Future;
use futures::task::Poll;
use futures::test::MockTask;
use http1_plain::Request;
use service_combine::TransformExt;
use service_core::{NoMemory, Transform};
use std::alloc::{AllocError, Global};
use std::test::Fail;

// Each refusal of a policy by one other.
fn renamed(error: CorsInitError) -> CorsInitError {
    match error {
        CorsInitError::Config(_) => CorsInitError::Config(ConfigError::BadMethod),
        CorsInitError::Memory => CorsInitError::Memory,
    }
}

fn fault_in<S: Drop, E: Drop>(made: Poll<Result<S, E>>) -> Option<E> {
    match made {
        Poll::Ready(made) => made.err(),
        Poll::Pending => None,
    }
}

// Why a transform puts nothing over the service, or nothing where it does.
fn fault_of<T>(task: &MockTask, alloc: Global, transform: T) -> Option<T::InitError>
where
    T: Transform<Inner, Request, Transform: Drop, InitError: Drop> + Drop,
    requires { (service : _) → T.can_make transform service }
{
    let mut future = transform.new_transform(Inner {
        alloc,
        is_empty: false,
    });
    let made = task.poll(&mut future);
    drop(future);
    drop(transform);
    fault_in(made)
}

// The same, where a closure changes what comes in place of a service.
fn changed_fault<T, F, E>(
    task: &MockTask,
    alloc: Global,
    parts: (T, F),
) -> Result<Option<E>, AllocError>
where
    E: NoMemory,
    T: Transform<Inner, Request, Transform: Drop, InitError: Drop> + Drop,
    F: Fn(T::InitError) -> E + Drop,
    requires transform { (service : _) → T.can_make parts.0 service }
    requires f { F.IsAlwaysCallable parts.1 }
{
    let (transform, f) = parts;
    match transform.map_init_err(alloc, f) {
        Ok(changed) => Ok(fault_of(task, alloc, changed)),
        Err(error) => Err(error),
    }
}

fn is_renamed(fault: Option<CorsInitError>) -> Result<bool, AllocError> {
    match fault {
        None => Ok(false),
        Some(CorsInitError::Memory) => Err(AllocError),
        Some(CorsInitError::Config(error)) => Ok(error == ConfigError::BadMethod),
    }
}

fn is_changed_of(task: &MockTask, alloc: Global, cors: Cors<NoRule>) -> Result<bool, AllocError> {
    match changed_fault(task, alloc, (cors, renamed)) {
        Ok(fault) => is_renamed(fault),
        Err(error) => Err(error),
    }
}

// Whether the error of a policy, changed so, is that no method was a method, or there is none.
fn is_changed(task: &MockTask, alloc: Global, calls: &[Call]) -> Result<bool, AllocError> {
    match built(alloc, calls) {
        Ok(cors) => is_changed_of(task, alloc, cors),
        Err(error) => Err(error),
    }
}

#[test]
fn a_refused_policy_tells_why_in_other_words(rt: HostRuntime) -> Result<(), Fail> {
    let task = MockTask::new(&rt)?;
    let alloc = rt.alloc();
    let shown = [
        is_changed(&task, alloc, &[Origin("*")]),
        not(is_changed(&task, alloc, &[])),
    ];
    drop(task);
    hold(&rt, &shown)
}
