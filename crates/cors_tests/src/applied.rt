//! A policy over a factory of services.
ghost use Rattle.std.specs.Prelude.{⊤};
ghost use Rattle.service_core.specs.Meaning.{GivesOnly};

use crate::inner::{Failed, Inner};
use crate::shown::holds;
use cors_answer::{Cors, CorsInitError};
use cors_policy::NoRule;
use futures::Future;
use futures::task::Poll;
use futures::test::MockTask;
use http1_plain::{Request, Response};
use service_core::{NoMemory, Ready, ServiceFactory, Transform, apply, ok};
use std::alloc::{AllocError, Global};
use std::test::Fail;

/// Makes the service under the policies.
#[derive(Drop)]
struct Maker {
    alloc: Global,
}

impl ServiceFactory<Request> for Maker {
    type Response = Response;

    type Error = Failed;

    type Config = ();

    type Service = Inner;

    type InitError = AllocError;

    type Future = Ready<Result<Inner, AllocError>>;

    ghost may = { λ _ _ _ _. ⊤ };

    ghost may_ready = { λ _ _ _. ⊤ };

    ghost may_begin = { λ _ _ _ f. GivesOnly ⟦<Ready<Result<Response, Failed>> as Future>⟧ f (λ _. ⊤) };

    ghost may_init = { λ _ _ _. ⊤ };

    ghost may_make = { λ _ _. ⊤ };

    ghost begun_gives = { λ m c q f h. h };

    fn new_service(&self, _cfg: ()) -> Ready<Result<Inner, AllocError>> {
        ok(Inner {
            alloc: self.alloc,
            is_empty: false,
        })
    }
}

fn is_service<S: Drop, E: Drop>(made: Result<S, E>) -> Result<bool, E> {
    match made {
        Ok(service) => {
            drop(service);
            Ok(true)
        }
        Err(error) => Err(error),
    }
}

fn is_made<S: Drop, E: Drop>(made: Poll<Result<S, E>>) -> Result<bool, E> {
    match made {
        Poll::Ready(made) => is_service(made),
        Poll::Pending => Ok(false),
    }
}

// Whether a factory makes a service at once.
fn makes<F>(task: &MockTask, factory: F) -> Result<bool, F::InitError>
where
    F: ServiceFactory<Request, Config = (), Service: Drop, InitError: Drop> + Drop,
    requires { F.can_make factory }
{
    let mut future = factory.new_service(());
    let made = task.poll(&mut future);
    drop(future);
    drop(factory);
    is_made(made)
}

// Whether a factory under a transform makes a service at once.
fn makes_under<T>(
    task: &MockTask,
    alloc: Global,
    transform: T,
    factory: Maker,
) -> Result<bool, T::InitError>
where
    T: Transform<Inner, Request, Transform: Drop, InitError: From<AllocError> + NoMemory + Drop>
        + Drop,
    requires { (service : _) → T.can_make transform service }
{
    match apply(alloc, transform, factory) {
        Ok(wrapped) => makes(task, wrapped),
        Err(error) => Err(T::InitError::from(error)),
    }
}

fn default_makes(task: &MockTask, alloc: Global) -> Result<bool, CorsInitError> {
    let policy: Cors<NoRule> = Cors::default(alloc);
    makes_under(task, alloc, policy, Maker { alloc })
}

// Whether a middleware is made under the default policy.
fn default_is_made(task: &MockTask, alloc: Global) -> Result<bool, AllocError> {
    match default_makes(task, alloc) {
        Ok(is_made) => Ok(is_made),
        Err(CorsInitError::Config(_)) => Ok(false),
        Err(CorsInitError::Memory) => Err(AllocError),
    }
}

#[test]
fn a_default_policy_makes_a_middleware(rt: HostRuntime) -> Result<(), Fail> {
    let task = MockTask::new(&rt)?;
    let shown = default_is_made(&task, rt.alloc());
    drop(task);
    holds(&rt, shown)
}
