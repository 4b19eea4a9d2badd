//! The chain, and what it answers.
ghost use Rattle.std.specs.Prelude.{IfOk};

use crate::asked::{of_no_origin, of_the_shop};
use crate::failure::Failure;
use crate::page::page;
use crate::shown::Shown;
use cors_answer::{Cors, CorsFault, CorsInitError};
use cors_policy::NoRule;
use futures::executor::block_on_queue;
use futures::task::{Doorbell, Queue};
use http1_plain::{Request, Response};
use service_combine::ServiceFactoryExt;
use service_core::{Service, ServiceFactory, Transform, apply, fn_service};
use std::alloc::{AllocError, AllocGlobal, Global};
use std::random::RandomSource;
use std::sync::Wait;

/// What was asked, and what came.
#[derive(Drop)]
pub struct Outcome {
    /// To a page of `https://shop.example`.
    pub shop: Shown,
    /// To a request that names no origin.
    pub nobody: Shown,
}

fn shown_of(answer: &Result<Shown, CorsFault>) -> Result<Shown, Failure> {
    match answer {
        Ok(shown) => Ok(*shown),
        Err(_) => Err(Failure::Memory),
    }
}

// Calls the service with the request.
fn call<R: Wait, S>(rt: &R, queue: &Queue, service: &S, req: Request) -> Result<Shown, Failure>
where
    S: Service<Request, Response = Shown, Error = CorsFault>,
    requires { S.can_call service.now }
{
    match block_on_queue(rt, queue, service.call(req)) {
        Ok(answer) => {
            let shown = shown_of(&answer);
            drop(answer);
            shown
        }
        Err(_) => Err(Failure::Memory),
    }
}

// The same with a request that was made.
fn call_made<R: Wait, S>(
    rt: &R,
    queue: &Queue,
    service: &S,
    req: Result<Request, AllocError>,
) -> Result<Shown, Failure>
where
    S: Service<Request, Response = Shown, Error = CorsFault>,
    requires { S.can_call service.now }
{
    match req {
        Ok(req) => call(rt, queue, service, req),
        Err(_) => Err(Failure::Memory),
    }
}

// Calls the service twice.
fn call_twice<R: Wait, S>(
    rt: &R,
    queue: &Queue,
    alloc: Global,
    service: &S,
) -> Result<Outcome, Failure>
where
    S: Service<Request, Response = Shown, Error = CorsFault>,
    requires { S.can_call service.now }
{
    let shop = call_made(rt, queue, service, of_the_shop(alloc))?;
    let nobody = call_made(rt, queue, service, of_no_origin(alloc))?;
    Ok(Outcome { shop, nobody })
}

// Calls a service twice, where it was made.
fn ask_made<R: Wait, S>(
    rt: &R,
    queue: &Queue,
    alloc: Global,
    made: &Result<S, Failure>,
) -> Result<Outcome, Failure>
where
    S: Service<Request, Response = Shown, Error = CorsFault>,
    requires { IfOk made.now (λ service. S.can_call service) }
{
    match made {
        Ok(service) => call_twice(rt, queue, alloc, service),
        Err(failure) => Err(*failure),
    }
}

// Makes a service of the factory, and calls it twice.
fn ask<R: Wait, F>(rt: &R, queue: &Queue, alloc: Global, factory: F) -> Result<Outcome, Failure>
where
    F: ServiceFactory<
        Request,
        Config = (),
        Response = Shown,
        Error = CorsFault,
        InitError = Failure,
        Service: Drop,
    >
        + Drop,
    requires { F.can_make factory }
{
    match block_on_queue(rt, queue, factory.new_service(())) {
        Ok(made) => {
            let outcome = ask_made(rt, queue, alloc, &made);
            drop(made);
            outcome
        }
        Err(_) => Err(Failure::Memory),
    }
}

// Shows the answers of a factory's service, and asks it for both.
fn show<R: Wait, F>(rt: &R, queue: &Queue, alloc: Global, factory: F) -> Result<Outcome, Failure>
where
    F: ServiceFactory<
        Request,
        Config = (),
        Response = Response,
        Error = CorsFault,
        InitError = Failure,
        Service: Drop,
    >
        + Drop,
    requires { F.can_make factory }
{
    match factory.map(alloc, |response: Response| Shown::of(&response)) {
        Ok(shown) => ask(rt, queue, alloc, shown),
        Err(_) => Err(Failure::Memory),
    }
}

// Tells in the program's words why no service is made, shows the answers, and asks for both.
fn present<R: Wait, F>(rt: &R, queue: &Queue, alloc: Global, factory: F) -> Result<Outcome, Failure>
where
    F: ServiceFactory<
        Request,
        Config = (),
        Response = Response,
        Error = CorsFault,
        InitError = CorsInitError,
        Service: Drop,
    >
        + Drop,
    requires { F.can_make factory }
{
    match factory.map_init_err(alloc, |error: CorsInitError| Failure::of_policy(error)) {
        Ok(told) => show(rt, queue, alloc, told),
        Err(_) => Err(Failure::Memory),
    }
}

// One origin is allowed.
fn policy(alloc: Global) -> Result<Cors<NoRule>, AllocError> {
    Cors::default(alloc).allowed_origin("https://shop.example")
}

// Puts a factory's service under a transform, and asks for both answers.
fn present_under<R: Wait, T, F>(
    rt: &R,
    queue: &Queue,
    alloc: Global,
    transform: T,
    factory: F,
) -> Result<Outcome, Failure>
where
    F: ServiceFactory<Request, Config = (), InitError = AllocError, Service: Drop> + Drop,
    T: Transform<
        F::Service,
        Request,
        Response = Response,
        Error = CorsFault,
        Transform: Drop,
        InitError = CorsInitError,
    >
        + Drop,
    requires transform { (service : F.Service) → F.Service.can_call service → T.can_make transform service }
    requires factory { F.can_make factory }
{
    match apply(alloc, transform, factory) {
        Ok(chain) => present(rt, queue, alloc, chain),
        Err(_) => Err(Failure::Memory),
    }
}

// Puts a factory's service under a policy for one origin, and asks for both answers.
fn present_allowed<R: Wait, F>(
    rt: &R,
    queue: &Queue,
    alloc: Global,
    factory: F,
) -> Result<Outcome, Failure>
where
    F: ServiceFactory<
        Request,
        Config = (),
        Response = Response,
        Error = AllocError,
        InitError = AllocError,
        Service: Drop,
    >
        + Drop,
    requires { F.can_make factory }
{
    match policy(alloc) {
        Ok(policy) => present_under(rt, queue, alloc, policy, factory),
        Err(_) => Err(Failure::Memory),
    }
}

// The same of the handler.
fn present_page<R: Wait>(rt: &R, queue: &Queue, alloc: Global) -> Result<Outcome, Failure> {
    match fn_service(alloc, move |_: Request| page(alloc)) {
        Ok(handler) => present_allowed(rt, queue, alloc, handler),
        Err(_) => Err(Failure::Memory),
    }
}

/// Builds the chain, and asks it for both answers.
pub fn answers<R>(rt: &R) -> Result<Outcome, Failure>
where
    R: Wait + RandomSource + AllocGlobal,
{
    match Queue::new(rt, Doorbell::parking()) {
        Ok(queue) => {
            let outcome = present_page(rt, &queue, rt.alloc());
            drop(queue);
            outcome
        }
        Err(_) => Err(Failure::Memory),
    }
}
