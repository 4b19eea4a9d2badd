//! What the handlers of a script answer.
ghost use Rattle.std.specs.Prelude.{◌≡◌, IfOk};
ghost use Rattle.http1_plain.specs.Views.{request_of};
ghost use Rattle.handlers.specs.Handlers.{echo_response, hello_response, peer_response, HandlerGives};

use crate::HandlerFault;
use http_header::CONTENT_TYPE;
use http1_plain::{FieldValue, Request, Response};
use report::peer_text;
use script::Handler;
use service_core::{Octets, Peer};
use std::alloc::{AllocError, Global};

fn hello_response(alloc: Global) -> Result<Response, AllocError>
    ensures { IfOk result (λ response. response ≡ hello_response) }
{
    let mut response = Response::new(alloc, 200);
    response.set_static_body(b"Hello world!");
    let value = FieldValue::from_static(alloc, b"text/plain");
    match response.headers_mut().append(CONTENT_TYPE, value) {
        Ok(()) => Ok(response),
        Err(error) => {
            drop(response);
            Err(error)
        }
    }
}

fn peer_response(alloc: Global, peer: Peer) -> Result<Response, AllocError>
    ensures { IfOk result (λ response. response ≡ peer_response peer) }
{
    let body = peer_text(alloc, peer)?;
    let mut response = Response::new(alloc, 200);
    response.set_body(body);
    Ok(response)
}

fn echo_response(alloc: Global, request: &Request) -> Result<Response, AllocError>
    ensures { IfOk result (λ response. response ≡ echo_response (request_of request.now)) }
{
    let body = echo_text(alloc, request)?;
    let mut response = Response::new(alloc, 200);
    response.set_body(body);
    Ok(response)
}

// The method, a space, the target, LF and the body.
fn echo_text(alloc: Global, request: &Request) -> Result<Octets, AllocError>
    ensures { IfOk result (λ text. text ≡ (echo_response (request_of request.now)).body) }
{
    let mut text = Octets::of(alloc, request.head.method.as_str().as_bytes())?;
    text.push_all(b" ")?;
    text.push_all(request.head.target.as_bytes())?;
    text.push_all(b"\n")?;
    text.push_all(request.body.as_bytes())?;
    Ok(text)
}

/// What a handler answers to a request.
pub fn answer(handler: Handler, alloc: Global, request: &Request) -> Result<Response, HandlerFault>
    ensures { HandlerGives handler (request_of request.now) result }
{
    match handler {
        Handler::Hello => hello_response(alloc).map_err(|_| HandlerFault::Memory),
        Handler::Echo => echo_response(alloc, request).map_err(|_| HandlerFault::Memory),
        Handler::Peer => peer_response(alloc, request.peer).map_err(|_| HandlerFault::Memory),
        Handler::Status(status) => Ok(Response::new(alloc, status.code())),
        Handler::Fail => Err(HandlerFault::Failed),
    }
}
