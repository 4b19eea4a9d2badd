//! Connections that are served and looked at: calls without a clause, but that the services may be called.
ghost use Rattle.std.specs.Prelude.{◌≡◌, None, IfOk};
ghost use Rattle.std.specs.Arc.{arc_value};
ghost use Rattle.http1_dispatcher.specs.Connecting.{MayUpgrade};

use crate::echo::Echo;
use crate::test_link::{TestLink, Way};
use futures::Future;
use futures::task::Poll;
use futures::test::MockTask;
use http_flow::{ExpectHandler, Framed, Handed, HttpFlow, UpgradeHandler};
use http1_dispatcher::Dispatcher;
use http1_plain::{ErrorResponse, Limits, Request};
use service_core::{Ended, How, Link, LinkHolder, Service};
use std::alloc::{AllocError, Global};
use std::sync::Arc;

/// The answer to a request with the target `/a` and no body.
pub(crate) const OK: &[u8] = b"HTTP/1.1 200 OK\r\ncontent-length: 3\r\n\r\n/a\n";

/// The answer to a request that has no framing, no form, or chunks that aren't any.
pub(crate) const BAD: &[u8] =
    b"HTTP/1.1 400 Bad Request\r\ncontent-length: 0\r\nconnection: close\r\n\r\n";

/// The answer to a body above the limit.
pub(crate) const TOO_LARGE: &[u8] =
    b"HTTP/1.1 413 Payload Too Large\r\ncontent-length: 0\r\nconnection: close\r\n\r\n";

/// The answer to a head above its limits.
pub(crate) const FIELDS_TOO_LARGE: &[u8] = b"HTTP/1.1 431 Request Header Fields Too Large\r\n\
content-length: 0\r\nconnection: close\r\n\r\n";

/// The most polls that a connection needs here.
pub(crate) const MANY: usize = 10_000;

/// What the connections of the tests are served within.
pub(crate) fn limits() -> Limits {
    Limits::new(64, 1024)
}

/// What a connection comes to.
#[derive(Clone, Copy)]
pub(crate) enum Wanted<'a> {
    /// It ends so, or not at all, and wrote this.
    Writes(Option<How>, &'a [u8]),
    /// It took so many bytes, and wrote by so many calls.
    Moves(usize, u64),
}

// Whether a connection that ended so, or not at all, comes to this. One that took less found no memory for a larger buffer.
fn is_met(wanted: &Wanted<'_>, ended: Option<How>, link: &TestLink) -> Result<bool, AllocError> {
    match wanted {
        Wanted::Writes(how, text) => Ok(ended == *how && link.is_written(text)),
        Wanted::Moves(taken, _) if link.moved().0 < *taken => Err(AllocError),
        Wanted::Moves(taken, writes) => Ok(link.moved() == (*taken, *writes)),
    }
}

// The same of one that ended, where memory must have sufficed.
fn is_ended(ended: &Ended<TestLink>, wanted: &Wanted<'_>) -> Result<bool, AllocError> {
    if ended.how == How::Memory {
        return Err(AllocError);
    }
    is_met(wanted, Some(ended.how), &ended.link)
}

// The same, where the service may have ended by an error.
fn has_ended<E>(
    given: &Result<Ended<TestLink>, E>,
    wanted: &Wanted<'_>,
) -> Result<bool, AllocError> {
    match given {
        Ok(ended) => is_ended(ended, wanted),
        Err(_) => Ok(false),
    }
}

// Whether the future comes to this within so many polls.
fn polled<F, E>(
    task: &MockTask,
    mut future: F,
    polls: usize,
    wanted: &Wanted<'_>,
) -> Result<bool, AllocError>
where
    F: Future<Output = Result<Ended<TestLink>, E>> + LinkHolder<TestLink> + Drop,
    E: Drop,
    requires { F.can_poll future }
{
    for _ in 0..polls {
        if let Poll::Ready(given) = task.poll(&mut future) {
            return has_ended(&given, wanted);
        }
    }
    is_met(wanted, None, &future.into_link())
}

/// Whether these services bring a link over the bytes to this within so many polls.
pub(crate) fn is_served_by<X, U>(
    task: &MockTask,
    flow: &Arc<HttpFlow<Echo, X, U>>,
    keeps_alive: bool,
    served: (&[u8], Way, usize),
    wanted: &Wanted<'_>,
) -> Result<bool, AllocError>
where
    X: Service<Request, Response = Request, Error: ErrorResponse> + Drop,
    U: Service<
        (Request, Framed<TestLink>),
        Response = Handed<TestLink>,
        Error: Drop,
        Future: LinkHolder<TestLink>,
    >
        + Drop,
    requires askable { X.can_call (arc_value flow.now).expect }
    requires upgradable { MayUpgrade U.Service ⟦<TestLink as Link>⟧ U.Future.may_stand (arc_value flow.now) }
{
    let (bytes, way, polls) = served;
    let alloc = flow.service.alloc;
    match TestLink::new(alloc, bytes, way) {
        Ok(link) => {
            let peer = link.peer();
            let future = Dispatcher::new(alloc, flow, limits(), keeps_alive, peer, link);
            polled(task, future, polls, wanted)
        }
        Err(error) => Err(error),
    }
}

/// The services of a connection that `Echo` answers alone.
pub(crate) fn echoing(
    alloc: Global,
) -> Result<Arc<HttpFlow<Echo, ExpectHandler, UpgradeHandler>>, AllocError>
    ensures { IfOk result (λ flow. (arc_value flow).upgrade ≡ None) }
{
    let flow = HttpFlow {
        service: Echo { alloc },
        expect: ExpectHandler,
        upgrade: None,
    };
    Ok(Arc::new(alloc, flow)?)
}

/// Whether `Echo` alone brings a link over the bytes to this within so many polls.
pub(crate) fn is_echoed(
    task: &MockTask,
    alloc: Global,
    keeps_alive: bool,
    served: (&[u8], Way, usize),
    wanted: &Wanted<'_>,
) -> Result<bool, AllocError> {
    match echoing(alloc) {
        Ok(flow) => is_served_by(task, &flow, keeps_alive, served, wanted),
        Err(error) => Err(error),
    }
}

/// The same, where the connection stays behind an answer.
pub(crate) fn is_served(
    task: &MockTask,
    alloc: Global,
    served: (&[u8], Way, usize),
    wanted: &Wanted<'_>,
) -> Result<bool, AllocError> {
    is_echoed(task, alloc, true, served, wanted)
}
