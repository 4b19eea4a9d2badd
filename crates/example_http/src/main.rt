//! Answers a request by a handler of its own, under a policy on other origins, and prints the answer.
#![tactic(auto)]

ghost use Rattle.std.specs.Prelude.{IsSome};

use command_line::print;
use cors_answer::{Cors, CorsFault, CorsInitError};
use cors_policy::NoRule;
use futures::executor::block_on;
use http_service::{HttpService, KeepAlive};
use http1_plain::{Request, Response};
use server_run::{MemoryLink, ReadStep};
use service_core::{Octets, Peer, Ready, Service, ServiceFactory, apply, fn_service, ready};
use std::alloc::{AllocError, AllocGlobal, Global};
use std::process::ExitCode;
use std::random::RandomSource;
use std::sync::Wait;

// The handler.
fn greet(request: Request) -> Ready<Result<Response, AllocError>>
    ensures { IsSome result.value }
{
    ready(Response::text(request.head.target.allocator(), 200, "Hello!"))
}

// A connection in memory, on which one request comes.
fn link(alloc: Global) -> Result<MemoryLink, AllocError> {
    let request = b"GET / HTTP/1.1\r\nOrigin: https://shop.example\r\n\r\n";
    let reads = vec![in alloc; ReadStep::Give(Octets::of(alloc, request)?)]?;
    Ok(MemoryLink::new(alloc, 0, Peer::Local, reads, Vec::new(alloc)))
}

// What a service of connections writes on it, by what stands under the policy.
fn written<R, P>(rt: &R, policed: P) -> Result<String, AllocError>
where
    R: Wait + RandomSource + AllocGlobal,
    P: ServiceFactory<
        Request,
        Config = (),
        Response = Response,
        Error = CorsFault,
        InitError = CorsInitError,
        Service: Drop,
    >
        + Drop,
    requires { P.can_make policed }
{
    let service = HttpService::build(rt.alloc())
        .keep_alive(KeepAlive::Os)
        .finish(policed)
        .tcp();
    let Ok(Ok(connections)) = block_on(rt, service.new_service(())) else {
        return Err(AllocError);
    };
    let Ok(Ok(ended)) = block_on(rt, connections.call(link(rt.alloc())?)) else {
        return Err(AllocError);
    };
    String::from_utf8_lossy(rt.alloc(), ended.link.written())
}

// The same, by the handler under a policy.
fn served<R: Wait + RandomSource + AllocGlobal>(rt: &R) -> Result<String, AllocError> {
    let cors: Cors<NoRule> = Cors::default(rt.alloc()).allowed_origin("https://shop.example")?;
    written(rt, apply(rt.alloc(), cors, fn_service(rt.alloc(), greet)?)?)
}

fn main(rt: HostRuntime) -> ExitCode {
    ExitCode::from(match served(&rt) {
        Ok(answer) => print(&rt, answer.trim_end(), 0),
        Err(AllocError) => print(&rt, "out of memory", 7),
    })
}
