//! Requests are made, and what answers them is compared.
use crate::inner::Inner;
use cors_answer::{Cors, CorsFault, CorsInitError, CorsMiddleware};
use cors_policy::OriginRule;
use futures::task::Poll;
use futures::test::MockTask;
use http::method::Method;
use http_header::HeaderName;
use http1_plain::{
    FieldValue, HeaderList, HttpVersion, Request, RequestHead, RequestHeaders, Response,
    write_response,
};
use service_core::{Octets, Peer, Service, Transform};
use std::alloc::{AllocError, Global};

/// By which method something is asked. A request's own method may own memory, whose end each function that is handed it would
/// have.
#[derive(Clone, Copy)]
pub(crate) enum Verb {
    Get,
    Options,
}

fn method_of(verb: Verb) -> Method {
    match verb {
        Verb::Get => Method::GET,
        Verb::Options => Method::OPTIONS,
    }
}

/// A method, and names and values.
pub(crate) type Asked<'a> = (Verb, &'a [(&'a str, &'a str)]);

fn name_of(alloc: Global, text: &str) -> Result<HeaderName, AllocError> {
    match HeaderName::from_bytes(alloc, text.as_bytes()) {
        Ok(name) => Ok(name),
        Err(_) => Err(AllocError),
    }
}

fn value_of(alloc: Global, text: &str) -> Result<FieldValue, AllocError> {
    match FieldValue::new(alloc, text.as_bytes()) {
        Ok(value) => Ok(value),
        Err(_) => Err(AllocError),
    }
}

// The list goes on with this header.
fn append(list: &mut HeaderList, name: HeaderName, value: FieldValue) -> Result<(), AllocError> {
    list.append(name, value)
}

// The list goes on with a header of this name.
fn put_named(
    list: &mut HeaderList,
    alloc: Global,
    name: HeaderName,
    value: &str,
) -> Result<(), AllocError> {
    match value_of(alloc, value) {
        Ok(value) => append(list, name, value),
        Err(error) => {
            drop(name);
            Err(error)
        }
    }
}

// The list goes on with this header.
fn put(list: &mut HeaderList, alloc: Global, name: &str, value: &str) -> Result<(), AllocError> {
    match name_of(alloc, name) {
        Ok(name) => put_named(list, alloc, name, value),
        Err(error) => Err(error),
    }
}

// The list goes on with these headers.
fn put_all(
    list: &mut HeaderList,
    alloc: Global,
    fields: &[(&str, &str)],
) -> Result<(), AllocError> {
    for (name, value) in fields {
        put(list, alloc, name, value)?;
    }
    Ok(())
}

/// A list of these headers.
pub(crate) fn list_of(alloc: Global, fields: &[(&str, &str)]) -> Result<HeaderList, AllocError> {
    let mut list = HeaderList::new(alloc);
    match put_all(&mut list, alloc, fields) {
        Ok(()) => Ok(list),
        Err(error) => {
            drop(list);
            Err(error)
        }
    }
}

// The headers of a request, as they stand in the list.
fn headers_of(list: Result<HeaderList, AllocError>) -> Result<RequestHeaders, AllocError> {
    match list {
        Ok(list) => {
            let headers = RequestHeaders::from_list(&list);
            drop(list);
            headers
        }
        Err(error) => Err(error),
    }
}

// A head for `/` with the headers.
fn head_with(
    alloc: Global,
    method: Method,
    headers: RequestHeaders,
) -> Result<RequestHead, AllocError> {
    match Octets::of(alloc, b"/") {
        Ok(target) => Ok(RequestHead {
            method,
            target,
            version: HttpVersion::Http11,
            headers,
        }),
        Err(error) => {
            drop(method);
            drop(headers);
            Err(error)
        }
    }
}

/// A head for `/`.
pub(crate) fn head(alloc: Global, asked: Asked) -> Result<RequestHead, AllocError> {
    match headers_of(list_of(alloc, asked.1)) {
        Ok(headers) => head_with(alloc, method_of(asked.0), headers),
        Err(error) => Err(error),
    }
}

fn request(alloc: Global, asked: Asked) -> Result<Request, AllocError> {
    match head(alloc, asked) {
        Ok(head) => Ok(Request {
            head,
            body: Octets::new(alloc),
            peer: Peer::Local,
        }),
        Err(error) => Err(error),
    }
}

/// What a future of the middleware gives.
type Answer = Result<Response, CorsFault>;

// What the middleware's future gives at its first poll.
fn polled<G: OriginRule>(
    task: &MockTask,
    service: &CorsMiddleware<Inner, G>,
    request: Request,
) -> Poll<Answer> {
    let mut future = service.call(request);
    let polled = task.poll(&mut future);
    drop(future);
    polled
}

fn no_response(fault: &CorsFault) -> Result<Option<Response>, AllocError> {
    match fault {
        CorsFault::Answered(_) => Ok(None),
        CorsFault::Memory => Err(AllocError),
    }
}

fn response_of_answer(answer: Answer) -> Result<Option<Response>, AllocError> {
    match answer {
        Ok(response) => Ok(Some(response)),
        Err(fault) => no_response(&fault),
    }
}

// The response, or nothing where there is none.
fn response_of(polled: Poll<Answer>) -> Result<Option<Response>, AllocError> {
    match polled {
        Poll::Ready(answer) => response_of_answer(answer),
        Poll::Pending => Ok(None),
    }
}

/// A service under a policy, or why there is none.
pub(crate) type Made<G> = Result<CorsMiddleware<Inner, G>, CorsInitError>;

/// The service under the policy.
pub(crate) fn service_under<G: OriginRule>(cors: &Cors<G>, inner: Inner) -> Made<G> {
    cors.new_transform(inner).into_inner()
}

fn no_service(error: &CorsInitError) -> Result<Option<Response>, AllocError> {
    match error {
        CorsInitError::Config(_) => Ok(None),
        CorsInitError::Memory => Err(AllocError),
    }
}

// The response of the service.
fn response_of_service<G: OriginRule>(
    task: &MockTask,
    alloc: Global,
    service: &CorsMiddleware<Inner, G>,
    asked: Asked,
) -> Result<Option<Response>, AllocError> {
    match request(alloc, asked) {
        Ok(request) => response_of(polled(task, service, request)),
        Err(error) => Err(error),
    }
}

/// The response of the service, or nothing where there is none.
pub(crate) fn response_by<G: OriginRule>(
    task: &MockTask,
    alloc: Global,
    service: &Made<G>,
    asked: Asked,
) -> Result<Option<Response>, AllocError> {
    match service {
        Ok(service) => response_of_service(task, alloc, service, asked),
        Err(error) => no_service(error),
    }
}

/// The response of the service under the policy, or nothing where there is none.
pub(crate) fn response_under<G: OriginRule>(
    task: &MockTask,
    inner: Inner,
    cors: &Cors<G>,
    asked: Asked,
) -> Result<Option<Response>, AllocError> {
    let alloc = inner.alloc;
    let service = service_under(cors, inner);
    let response = response_by(task, alloc, &service, asked);
    drop(service);
    response
}

fn written(alloc: Global, response: &Response) -> Result<Octets, AllocError> {
    let mut out = Octets::new(alloc);
    match write_response(&mut out, &Method::GET, HttpVersion::Http11, response, false) {
        Ok(()) => Ok(out),
        Err(error) => {
            drop(out);
            Err(error)
        }
    }
}

fn is_text(alloc: Global, response: &Response, text: &str) -> Result<bool, AllocError> {
    match written(alloc, response) {
        Ok(written) => {
            let shown = written.as_bytes() == text.as_bytes();
            drop(written);
            Ok(shown)
        }
        Err(error) => Err(error),
    }
}

fn is_some_text(
    alloc: Global,
    response: &Option<Response>,
    text: &str,
) -> Result<bool, AllocError> {
    match response {
        Some(response) => is_text(alloc, response, text),
        None => Ok(false),
    }
}

fn is_text_of_answer(
    alloc: Global,
    answer: &Result<Option<Response>, AllocError>,
    text: &str,
) -> Result<bool, AllocError> {
    match answer {
        Ok(response) => is_some_text(alloc, response, text),
        Err(error) => Err(*error),
    }
}

/// Whether the answer to a request is this text.
pub(crate) fn is_answered<G: OriginRule>(
    task: &MockTask,
    alloc: Global,
    cors: &Cors<G>,
    asked: Asked,
    text: &str,
) -> Result<bool, AllocError> {
    let inner = Inner {
        alloc,
        is_empty: false,
    };
    let answer = response_under(task, inner, cors, asked);
    let shown = is_text_of_answer(alloc, &answer, text);
    drop(answer);
    shown
}

/// The same under a builder that was made.
pub(crate) fn is_answered_under<G: OriginRule>(
    task: &MockTask,
    alloc: Global,
    cors: &Result<Cors<G>, AllocError>,
    asked: Asked,
    text: &str,
) -> Result<bool, AllocError> {
    match cors {
        Ok(cors) => is_answered(task, alloc, cors, asked, text),
        Err(error) => Err(*error),
    }
}
