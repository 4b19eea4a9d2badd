//! A connection that is served under a policy.
ghost use Rattle.std.specs.Prelude.{IfOk};

use crate::failure::Failure;
use crate::flight_link::FlightLink;
use crate::hello::Hello;
use crate::size::Size;
use cors_answer::{Cors, CorsFault, CorsInitError};
use cors_policy::NoRule;
use futures::executor::block_on_queue;
use futures::task::{Doorbell, Queue};
use http_flow::{HttpInitError, Never};
use http_service::HttpService;
use http1_plain::{Request, Response};
use service_core::{ApplyTransform, Ended, How, Octets, Service, ServiceFactory, apply};
use std::alloc::{AllocError, AllocGlobal, Global};
use std::random::RandomSource;
use std::sync::Wait;

/// Why no service of connections was made.
type Refused = HttpInitError<CorsInitError, Never, Never>;

// The link of so many of the kind at once, so many times.
fn link(alloc: Global, size: Size) -> Result<FlightLink, AllocError> {
    let mut flight = Octets::new(alloc);
    for _ in 0..size.flight {
        flight.push_all(size.kind.text())?;
    }
    let front = Octets::of(alloc, size.kind.front())?;
    Ok(FlightLink::new(front, flight, size.times))
}

// How many bytes were written on a connection that was served to its end.
fn written_of<E>(ended: &Result<Ended<FlightLink>, E>) -> Result<u64, Failure> {
    match ended {
        Ok(
            Ended {
                link,
                how: How::Served,
            },
        ) => Ok(link.written()),
        _ => Err(Failure::Memory),
    }
}

fn failure_of(refused: &Refused) -> Failure {
    match refused {
        HttpInitError::Service(CorsInitError::Config(_)) => Failure::Refused,
        _ => Failure::Memory,
    }
}

// Serves the link.
fn written_on<R: Wait, S>(
    rt: &R,
    queue: &Queue,
    service: &S,
    link: FlightLink,
) -> Result<u64, Failure>
where
    S: Service<FlightLink, Response = Ended<FlightLink>, Error: Drop>,
    requires { S.can_call service.now }
{
    match block_on_queue(rt, queue, service.call(link)) {
        Ok(ended) => written_of(&ended),
        Err(_) => Err(Failure::Memory),
    }
}

// The same by a service that was made.
fn written_by<R: Wait, S>(
    rt: &R,
    queue: &Queue,
    made: &Result<S, Refused>,
    link: FlightLink,
) -> Result<u64, Failure>
where
    S: Service<FlightLink, Response = Ended<FlightLink>, Error: Drop>,
    requires { IfOk made.now (λ service. S.can_call service) }
{
    match made {
        Ok(service) => written_on(rt, queue, service, link),
        Err(refused) => Err(failure_of(refused)),
    }
}

// The same by a service of the factory.
fn written_through<R: Wait, F>(
    rt: &R,
    queue: &Queue,
    factory: &F,
    link: FlightLink,
) -> Result<u64, Failure>
where
    F: ServiceFactory<
        FlightLink,
        Config = (),
        Response = Ended<FlightLink>,
        Error: Drop,
        InitError = Refused,
        Service: Drop,
    >,
    requires { F.can_make factory.now }
{
    match block_on_queue(rt, queue, factory.new_service(())) {
        Ok(made) => written_by(rt, queue, &made, link),
        Err(_) => Err(Failure::Memory),
    }
}

// The handler under the policy that allows everything.
fn policed(alloc: Global) -> Result<ApplyTransform<Cors<NoRule>, Hello, Request>, AllocError> {
    let cors = Cors::permissive(alloc)?;
    apply(alloc, cors, Hello { alloc })
}

// How many bytes are written in answer to the requests, by what stands under a policy.
fn written_under<R: Wait, P>(
    rt: &R,
    queue: &Queue,
    alloc: Global,
    policed: P,
    link: FlightLink,
) -> Result<u64, Failure>
where
    P: ServiceFactory<
        Request,
        Config = (),
        Response = Response,
        Error = CorsFault,
        InitError = CorsInitError,
        Service: Drop,
    >
        + Drop,
    requires { P.can_make policed }
{
    let connections = HttpService::build(alloc).finish(policed).tcp();
    written_through(rt, queue, &connections, link)
}

// The same by the queue's task.
fn written_within<R: Wait>(
    rt: &R,
    queue: &Queue,
    alloc: Global,
    size: Size,
) -> Result<u64, Failure> {
    let link = link(alloc, size)?;
    written_under(rt, queue, alloc, policed(alloc)?, link)
}

/// How many bytes are written in answer to the requests.
pub fn written<R>(rt: &R, size: Size) -> Result<u64, Failure>
where
    R: Wait + RandomSource + AllocGlobal,
{
    match Queue::new(rt, Doorbell::parking()) {
        Ok(queue) => written_within(rt, &queue, rt.alloc(), size),
        Err(_) => Err(Failure::Memory),
    }
}
