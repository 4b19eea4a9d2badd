//! Connections that are served and looked at.
ghost use Rattle.std.specs.Prelude.{◌≡◌, None};

use crate::hello::Hello;
use futures::Future;
use futures::task::Poll;
use futures::test::MockTask;
use http_flow::{DispatchError, Protocol};
use http_service::HttpService;
use server_run::{MemoryLink, ReadStep};
use service_core::{Ended, How, LinkHolder, Octets, Peer, Service, ServiceFactory};
use std::alloc::{AllocError, Global};

/// A request.
pub(crate) const GET: &[u8] = b"GET /a HTTP/1.1\r\n\r\n";

/// Its answer.
pub(crate) const HELLO: &[u8] = b"HTTP/1.1 200 OK\r\ncontent-length: 5\r\n\r\nhello";

// The name of each link.
const NAME: u64 = 7;

/// A link that gives these bytes, and then is at its end.
pub(crate) fn link(alloc: Global, bytes: &[u8]) -> Result<MemoryLink, AllocError> {
    let reads = vec![in alloc; ReadStep::Give(Octets::of(alloc, bytes)?)]?;
    Ok(MemoryLink::new(alloc, NAME, Peer::Local, reads, Vec::new(alloc)))
}

/// A link that gives nothing, and does not end.
pub(crate) fn silent_link(alloc: Global) -> Result<MemoryLink, AllocError> {
    let reads = vec![in alloc; ReadStep::Never]?;
    Ok(MemoryLink::new(alloc, NAME, Peer::Local, reads, Vec::new(alloc)))
}

/// The service that `Hello` answers alone.
pub(crate) fn hello(alloc: Global) -> HttpService<MemoryLink, Hello>
    ensures { result.upgrade ≡ None }
{
    HttpService::new(alloc, Hello::new(alloc))
}

// Whether the connection ended so, and this was written.
fn is_ended(ended: &Ended<MemoryLink>, how: How, text: &[u8]) -> Result<bool, AllocError> {
    if ended.how == How::Memory {
        return Err(AllocError);
    }
    Ok(ended.how == how && ended.link.name() == NAME && ended.link.written() == text)
}

// The same of what a future gave.
fn has_ended<E>(
    given: &Result<Ended<MemoryLink>, E>,
    how: How,
    text: &[u8],
) -> Result<bool, AllocError> {
    match given {
        Ok(ended) => is_ended(ended, how, text),
        Err(_) => Ok(false),
    }
}

// Whether the future ends so within some polls, and this was written.
fn ends<F, E>(task: &MockTask, mut future: F, how: How, text: &[u8]) -> Result<bool, AllocError>
where
    F: Future<Output = Result<Ended<MemoryLink>, E>> + Drop,
    E: Drop,
    requires { F.can_poll future }
{
    for _ in 0..100 {
        if let Poll::Ready(given) = task.poll(&mut future) {
            return has_ended(&given, how, text);
        }
    }
    Ok(false)
}

/// Whether a service of the factory ends the connection so, and this is written. The parts of the service are made at once.
pub(crate) fn serves_through<M, Q>(
    task: &MockTask,
    factory: &M,
    asked: Q,
    how: How,
    text: &[u8],
) -> Result<bool, AllocError>
where
    M: ServiceFactory<
        Q,
        Config = (),
        Response = Ended<MemoryLink>,
        Error: Drop,
        InitError: Drop,
        Service: Service<Q, Future: Drop> + Drop,
    >,
    Q: Drop,
    requires { M.can_make factory.now }
{
    match task.poll(&mut factory.new_service(())) {
        Poll::Ready(Ok(service)) => ends(task, service.call(asked), how, text),
        _ => Err(AllocError),
    }
}

// Whether the link is the one that was given, as it was given.
fn is_untouched(link: &MemoryLink) -> bool {
    let nothing: &[u8] = b"";
    link.name() == NAME && link.written() == nothing
}

// Whether the protocol was refused, and the link came back.
fn is_refused<E, XE, UE>(error: &DispatchError<MemoryLink, E, XE, UE>, protocol: Protocol) -> bool {
    match error {
        DispatchError::UnsupportedProtocol(told, link) => *told == protocol && is_untouched(link),
        DispatchError::Service(_) => false,
    }
}

// Whether the service refuses a connection that speaks the protocol, and its link comes back.
fn refuses<S, E, XE, UE>(task: &MockTask, service: &S, protocol: Protocol, link: MemoryLink) -> bool
where
    S: Service<
        (MemoryLink, Protocol, Peer),
        Response = Ended<MemoryLink>,
        Error = DispatchError<MemoryLink, E, XE, UE>,
    >,
    E: Drop,
    XE: Drop,
    UE: Drop,
    requires { S.can_call service.now }
{
    match task.poll(&mut service.call((link, protocol, Peer::Local))) {
        Poll::Ready(Err(error)) => is_refused(&error, protocol),
        _ => false,
    }
}

/// The same of a service of the factory.
pub(crate) fn refuses_through<M, E, XE, UE>(
    task: &MockTask,
    factory: &M,
    protocol: Protocol,
    link: MemoryLink,
) -> Result<bool, AllocError>
where
    M: ServiceFactory<
        (MemoryLink, Protocol, Peer),
        Config = (),
        Response = Ended<MemoryLink>,
        Error = DispatchError<MemoryLink, E, XE, UE>,
        InitError: Drop,
        Service: Drop,
    >,
    E: Drop,
    XE: Drop,
    UE: Drop,
    requires { M.can_make factory.now }
{
    match task.poll(&mut factory.new_service(())) {
        Poll::Ready(Ok(service)) => Ok(refuses(task, &service, protocol, link)),
        _ => Err(AllocError),
    }
}

// Whether the future waits at its first poll, and hands the link back then.
fn hands_back<F, E>(task: &MockTask, mut future: F) -> Result<bool, AllocError>
where
    F: Future<Output = Result<Ended<MemoryLink>, E>> + LinkHolder<MemoryLink>,
    E: Drop,
    requires { F.can_poll future }
{
    match task.poll(&mut future) {
        Poll::Pending => Ok(is_untouched(&future.into_link())),
        Poll::Ready(given) => {
            has_ended(&given, How::Served, b"")?;
            Ok(false)
        }
    }
}

/// Whether the future of a connection on which nothing comes hands its link back.
pub(crate) fn hands_back_through<M, Q>(
    task: &MockTask,
    factory: &M,
    asked: Q,
) -> Result<bool, AllocError>
where
    M: ServiceFactory<
        Q,
        Config = (),
        Response = Ended<MemoryLink>,
        Error: Drop,
        InitError: Drop,
        Service: Service<Q, Future: LinkHolder<MemoryLink>> + Drop,
    >,
    Q: Drop,
    requires { M.can_make factory.now }
{
    match task.poll(&mut factory.new_service(())) {
        Poll::Ready(Ok(service)) => hands_back(task, service.call(asked)),
        _ => Err(AllocError),
    }
}
