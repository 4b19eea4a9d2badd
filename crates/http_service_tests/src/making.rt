//! Services of connections of three parts, as they are made and as they are asked whether they are ready.
ghost use Rattle.std.specs.Prelude.{⊤};

use crate::hello::Hello;
use crate::mood::{Fault, Mood};
use crate::porter::Porter;
use crate::switch::Switch;
use futures::Future;
use futures::task::{Context, Poll};
use futures::test::MockTask;
use http_flow::{DispatchError, HttpInitError, Never, ReadyFault, upgrade_handler_hands_back};
use http_service::{HttpService, HttpTcpFactory};
use server_run::MemoryLink;
use service_core::{Service, ServiceFactory};
use std::alloc::{AllocError, Global};

/// How the three parts are.
#[derive(Clone, Copy)]
pub(crate) struct Moods {
    pub(crate) expect: Mood,
    pub(crate) upgrade: Mood,
    pub(crate) service: Mood,
}

/// Each part is made at once, and is ready.
pub(crate) const FINE: Moods = Moods {
    expect: Mood::Fine,
    upgrade: Mood::Fine,
    service: Mood::Fine,
};

/// What comes of the three parts: all are done, or what comes first of one that isn't.
#[derive(Clone, Copy, PartialEq, Eq)]
pub(crate) enum First {
    /// All are done.
    Done,
    /// One is awaited.
    Waits,
    /// The expect service errs.
    Expect,
    /// The upgrade service errs.
    Upgrade,
    /// The service of requests errs.
    Service,
}

/// The factory of handlers of such parts.
pub(crate) type Parts = HttpTcpFactory<MemoryLink, Hello, Porter, Switch>;

/// The factory of handlers whose parts are made so, and are ready so.
pub(crate) fn parts(alloc: Global, making: Moods, readiness: Moods) -> Parts
    ensures { ⟦<HttpTcpFactory<MemoryLink, Hello, Porter, Switch> as ServiceFactory<MemoryLink>>⟧.can_make result }
{
    upgrade_handler_hands_back::<MemoryLink>();
    let service = HttpService::build(alloc)
        .expect(Porter {
            making: making.expect,
            readiness: readiness.expect,
        })
        .upgrade(Switch {
            making: making.upgrade,
            readiness: readiness.upgrade,
        })
        .finish(Hello {
            alloc,
            making: making.service,
            readiness: readiness.service,
        });
    service.tcp()
}

// Which part was not made.
fn of_init(fault: &HttpInitError<Fault, Fault, Fault>) -> Result<First, AllocError> {
    match fault {
        HttpInitError::Expect(_) => Ok(First::Expect),
        HttpInitError::Upgrade(_) => Ok(First::Upgrade),
        HttpInitError::Service(_) => Ok(First::Service),
        HttpInitError::Memory => Err(AllocError),
    }
}

// What came of a making.
fn of_making<S>(made: &Result<S, HttpInitError<Fault, Fault, Fault>>) -> Result<First, AllocError> {
    match made {
        Ok(_) => Ok(First::Done),
        Err(fault) => of_init(fault),
    }
}

// What comes of a making within some polls.
fn comes_of<F, S>(task: &MockTask, mut making: F) -> Result<First, AllocError>
where
    F: Future<Output = Result<S, HttpInitError<Fault, Fault, Fault>>> + Drop,
    S: Drop,
    requires { F.can_poll making }
{
    for _ in 0..8 {
        if let Poll::Ready(made) = task.poll(&mut making) {
            return of_making(&made);
        }
    }
    Ok(First::Waits)
}

/// What comes of parts that are made so.
pub(crate) fn first_made(
    task: &MockTask,
    alloc: Global,
    making: Moods,
) -> Result<First, AllocError> {
    comes_of(task, parts(alloc, making, FINE).new_service(()))
}

// Asks a service whether it is ready.
#[derive(Drop)]
struct Asked<S> {
    service: S,
}

impl<S: Service<MemoryLink> + Drop> Future for Asked<S> {
    type Output = Result<(), S::Error>;

    ghost can_poll = { λ f. S.can_call f.service };

    ghost gives = { λ _ _. ⊤ };

    fn poll(&mut self, cx: &mut Context<'_>) -> Poll<Result<(), S::Error>> {
        self.service.poll_ready(cx)
    }
}

// What a part errs by that is not ready.
fn of_fault(fault: &ReadyFault<Fault, Fault, Never>) -> First {
    match fault {
        ReadyFault::Expect(_) => First::Expect,
        ReadyFault::Upgrade(_) => First::Upgrade,
        ReadyFault::Service(_) => First::Service,
    }
}

// The same of an error of the whole.
fn of_error(error: &DispatchError<MemoryLink, Fault, Fault, Never>) -> First {
    match error {
        DispatchError::Service(fault) => of_fault(fault),
        // (no connection is there yet that could speak another protocol)
        DispatchError::UnsupportedProtocol(_, _) => First::Waits,
    }
}

// What came of a question whether a service is ready.
fn of_readiness(
    answer: &Poll<Result<(), DispatchError<MemoryLink, Fault, Fault, Never>>>,
) -> First {
    match answer {
        Poll::Pending => First::Waits,
        Poll::Ready(Ok(())) => First::Done,
        Poll::Ready(Err(error)) => of_error(error),
    }
}

// The same of a service of the factory.
fn readiness_of<M>(task: &MockTask, factory: &M) -> Result<First, AllocError>
where
    M: ServiceFactory<
        MemoryLink,
        Config = (),
        Error = DispatchError<MemoryLink, Fault, Fault, Never>,
        InitError: Drop,
        Service: Drop,
    >,
    requires { M.can_make factory.now }
{
    match task.poll(&mut factory.new_service(())) {
        Poll::Ready(Ok(service)) => Ok(of_readiness(&task.poll(&mut Asked { service }))),
        _ => Err(AllocError),
    }
}

/// What comes of parts that are ready so.
pub(crate) fn first_ready(
    task: &MockTask,
    alloc: Global,
    readiness: Moods,
) -> Result<First, AllocError> {
    readiness_of(task, &parts(alloc, FINE, readiness))
}
