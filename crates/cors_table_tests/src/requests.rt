//! The table's requests.

use cors_plain::{Head, Header};
use http::method::Method;
use http_header::HeaderName;
use http1_plain::{FieldValue, HeaderList, HttpVersion, Request, RequestHead, RequestHeaders};
use service_core::{Octets, Peer};
use std::alloc::{AllocError, Global};

/// A name in any case, and a value.
pub(crate) type Field = (&'static str, &'static [u8]);

/// A request.
#[derive(Clone, Copy)]
pub(crate) enum Asked {
    /// The method, and the headers in order.
    By(&'static str, &'static [Field]),
    /// A preflight of `https://a.example` for PUT and for a header whose name is so many times `a`.
    ForLongName(usize),
}

use Asked::{By, ForLongName};

const A: Field = ("Origin", b"https://a.example");

const B: Field = ("origin", b"https://b.example:8443");

const W: Field = ("ORIGIN", b"https://w.example.org");

const GET: Field = ("Access-Control-Request-Method", b"GET");

const POST: Field = ("access-control-request-method", b"POST");

const PUT: Field = ("ACCESS-CONTROL-REQUEST-METHOD", b"PUT");

// In parts, since a list stands whole in the frame of the function that names it, where each step of its making is read beside
// all the others.

// Requests by GET, most with one origin.
const ORIGINS: [Asked; 13] = [
    By("GET", &[]),
    By("GET", &[A]),
    By("GET", &[B]),
    By("GET", &[W]),
    By("GET", &[("Origin", b"https://A.example")]),
    By("GET", &[("Origin", b"HTTPS://A.EXAMPLE")]),
    By("GET", &[("Origin", b"https://a.exampl")]),
    By("GET", &[("Origin", b"https://a.example/")]),
    By("GET", &[("Origin", b"https://a.example\x80\xc3\xa9\xff")]),
    By("GET", &[("Origin", b"\thttps://a.example \t.example.org")]),
    By("GET", &[("Origin", b"null")]),
    By("GET", &[("Origin", b"*")]),
    By("GET", &[("Origin", b"")]),
];

// Further requests that are no preflights.
const OTHERS: [Asked; 10] = [
    By("GET", &[A, B]),
    By("GET", &[B, ("Accept", b"*/*"), A]),
    By(
        "GET",
        &[PUT, A, ("Access-Control-Request-Headers", b"x-token")],
    ),
    By("HEAD", &[("Host", b"x"), A]),
    By("POST", &[]),
    By("POST", &[A, ("Content-Type", b"text/plain")]),
    By("POST", &[W]),
    By("POST", &[("Origin", b"https://evil.example")]),
    By("post", &[("Origin", b"https://evil.example")]),
    By("PUT", &[("Origin", b"a.example")]),
];

// Requests by OPTIONS, most of which ask for a method.
const METHODS: [Asked; 14] = [
    By("OPTIONS", &[]),
    By("OPTIONS", &[A]),
    By("OPTIONS", &[PUT]),
    By("OPTIONS", &[POST, ("Access-Control-Request-Headers", b",")]),
    By("OPTIONS", &[A, GET]),
    By("OPTIONS", &[A, PUT]),
    By("options", &[A, PUT]),
    By("OPTIONS", &[A, ("Access-Control-Request-Method", b"put")]),
    By("OPTIONS", &[A, ("Access-Control-Request-Method", b"")]),
    By("OPTIONS", &[A, ("Access-Control-Request-Method", b"P T")]),
    By("OPTIONS", &[A, ("Access-Control-Request-Method", b" PUT")]),
    By(
        "OPTIONS",
        &[A, ("Access-Control-Request-Method", b"P\xdcT")],
    ),
    By(
        "OPTIONS",
        &[A, ("Access-Control-Request-Method", b"X!#$%&'*+-.^_`|~")],
    ),
    By("OPTIONS", &[A, ("Access-Control-Request-Method", b"LOCK")]),
];

// Preflights that ask for headers.
const HEADERS: [Asked; 15] = [
    By(
        "OPTIONS",
        &[A, PUT, ("Access-Control-Request-Headers", b"")],
    ),
    By(
        "OPTIONS",
        &[A, PUT, ("Access-Control-Request-Headers", b"x-token")],
    ),
    By(
        "OPTIONS",
        &[
            A,
            PUT,
            ("Access-Control-Request-Headers", b"X-TOKEN, \tAccept\t ,a"),
        ],
    ),
    By(
        "OPTIONS",
        &[
            A,
            PUT,
            ("Access-Control-Request-Headers", b"x-token,,accept"),
        ],
    ),
    By(
        "OPTIONS",
        &[A, PUT, ("Access-Control-Request-Headers", b" , \t")],
    ),
    By(
        "OPTIONS",
        &[A, PUT, ("Access-Control-Request-Headers", b"x-token\x80")],
    ),
    By(
        "OPTIONS",
        &[A, PUT, ("Access-Control-Request-Headers", b"x-token\x7f")],
    ),
    By(
        "OPTIONS",
        &[A, PUT, ("Access-Control-Request-Headers", b"x token")],
    ),
    By(
        "OPTIONS",
        &[
            A,
            PUT,
            ("Access-Control-Request-Headers", b"x-token, authorization"),
        ],
    ),
    By(
        "OPTIONS",
        &[
            B,
            POST,
            PUT,
            ("Access-Control-Request-Headers", b"x-token"),
            ("Access-Control-Request-Headers", b"not a name"),
        ],
    ),
    By(
        "OPTIONS",
        &[
            W,
            POST,
            ("Access-Control-Request-Headers", b"x-!#$%&'*+.^_`|~0"),
        ],
    ),
    By(
        "OPTIONS",
        &[
            ("Origin", b"https://evil.example"),
            PUT,
            ("Access-Control-Request-Headers", b"x-token"),
        ],
    ),
    By("OPTIONS", &[("Origin", b"null"), POST]),
    By("OPTIONS", &[("Origin", b"*"), PUT]),
    By(
        "OPTIONS",
        &[
            ("Origin", b"\xe9\t"),
            GET,
            ("Access-Control-Request-Headers", b"A"),
        ],
    ),
];

fn add(list: &mut Vec<Asked>, rows: &[Asked]) -> Result<(), AllocError> {
    for row in rows {
        list.push(*row)?;
    }
    Ok(())
}

fn add_origins(list: &mut Vec<Asked>) -> Result<(), AllocError> {
    add(list, &ORIGINS)
}

fn add_others(list: &mut Vec<Asked>) -> Result<(), AllocError> {
    add(list, &OTHERS)
}

fn add_methods(list: &mut Vec<Asked>) -> Result<(), AllocError> {
    add(list, &METHODS)
}

fn add_headers(list: &mut Vec<Asked>) -> Result<(), AllocError> {
    add(list, &HEADERS)
}

fn add_all(list: &mut Vec<Asked>) -> Result<(), AllocError> {
    add_origins(list)?;
    add_others(list)?;
    add_methods(list)?;
    add_headers(list)
}

/// The requests in order.
pub(crate) fn requests(alloc: Global) -> Result<Vec<Asked>, AllocError> {
    let mut list = Vec::new(alloc);
    match add_all(&mut list) {
        Ok(()) => Ok(list),
        Err(error) => {
            drop(list);
            Err(error)
        }
    }
}

/// A name may have 65,535 bytes.
pub(crate) const LONG_NAMES: [Asked; 2] = [ForLongName(65535), ForLongName(65536)];

fn name_of(alloc: Global, text: &[u8]) -> Result<HeaderName, AllocError> {
    match HeaderName::from_bytes(alloc, text) {
        Ok(name) => Ok(name),
        Err(_) => Err(AllocError),
    }
}

fn value_of(alloc: Global, text: &[u8]) -> Result<FieldValue, AllocError> {
    match FieldValue::new(alloc, text) {
        Ok(value) => Ok(value),
        Err(_) => Err(AllocError),
    }
}

fn append_value(
    list: &mut HeaderList,
    name: HeaderName,
    value: FieldValue,
) -> Result<(), AllocError> {
    list.append(name, value)
}

fn append_named(
    alloc: Global,
    list: &mut HeaderList,
    name: HeaderName,
    value: &[u8],
) -> Result<(), AllocError> {
    match value_of(alloc, value) {
        Ok(value) => append_value(list, name, value),
        Err(error) => {
            drop(name);
            Err(error)
        }
    }
}

/// One more header as the middleware is given it.
pub(crate) fn append(
    alloc: Global,
    list: &mut HeaderList,
    name: &[u8],
    value: &[u8],
) -> Result<(), AllocError> {
    match name_of(alloc, name) {
        Ok(name) => append_named(alloc, list, name, value),
        Err(error) => Err(error),
    }
}

fn append_all(alloc: Global, list: &mut HeaderList, fields: &[Field]) -> Result<(), AllocError> {
    for (name, value) in fields {
        append(alloc, list, name.as_bytes(), value)?;
    }
    Ok(())
}

/// The headers as the middleware is given them.
pub(crate) fn header_list(alloc: Global, fields: &[Field]) -> Result<HeaderList, AllocError> {
    let mut list = HeaderList::new(alloc);
    match append_all(alloc, &mut list, fields) {
        Ok(()) => Ok(list),
        Err(error) => {
            drop(list);
            Err(error)
        }
    }
}

// The text with each letter in lower case.
fn lowercase(alloc: Global, text: &[u8]) -> Result<Octets, AllocError> {
    let mut lower = Vec::new(alloc);
    for byte in text {
        lower.push(byte.to_ascii_lowercase())?;
    }
    Ok(Octets::from_vec(lower))
}

fn push(list: &mut Vec<Header>, header: Header) -> Result<(), AllocError> {
    list.push(header)?;
    Ok(())
}

fn push_value(
    alloc: Global,
    list: &mut Vec<Header>,
    name: Octets,
    value: &[u8],
) -> Result<(), AllocError> {
    match Octets::of(alloc, value) {
        Ok(value) => push(list, (name, value)),
        Err(error) => {
            drop(name);
            Err(error)
        }
    }
}

fn push_pair(
    alloc: Global,
    list: &mut Vec<Header>,
    name: &str,
    value: &[u8],
) -> Result<(), AllocError> {
    match lowercase(alloc, name.as_bytes()) {
        Ok(name) => push_value(alloc, list, name, value),
        Err(error) => Err(error),
    }
}

/// The headers as the plain program is given them.
pub(crate) fn pairs(alloc: Global, fields: &[Field]) -> Result<Vec<Header>, AllocError> {
    let mut list = Vec::new(alloc);
    for (name, value) in fields {
        push_pair(alloc, &mut list, name, value)?;
    }
    Ok(list)
}

// So many times `a`.
fn long_name(alloc: Global, count: usize) -> Result<Octets, AllocError> {
    let mut name = Vec::new(alloc);
    for _ in 0..count {
        name.push(b'a')?;
    }
    Ok(Octets::from_vec(name))
}

fn method_of(alloc: Global, text: &str) -> Result<Method, AllocError> {
    match Method::from_bytes(alloc, text.as_bytes()) {
        Ok(method) => Ok(method),
        Err(_) => Err(AllocError),
    }
}

fn request_by(alloc: Global, method: Method, target: Octets, headers: RequestHeaders) -> Request {
    Request {
        head: RequestHead {
            method,
            target,
            version: HttpVersion::Http11,
            headers,
        },
        body: Octets::new(alloc),
        peer: Peer::Local,
    }
}

fn request_at(
    alloc: Global,
    method: Method,
    target: Result<Octets, AllocError>,
    headers: RequestHeaders,
) -> Result<Request, AllocError> {
    match target {
        Ok(target) => Ok(request_by(alloc, method, target, headers)),
        Err(error) => {
            drop(method);
            drop(headers);
            Err(error)
        }
    }
}

fn request_of(
    alloc: Global,
    method: Result<Method, AllocError>,
    headers: RequestHeaders,
) -> Result<Request, AllocError> {
    match method {
        Ok(method) => request_at(alloc, method, Octets::of(alloc, b"/"), headers),
        Err(error) => {
            drop(headers);
            Err(error)
        }
    }
}

// The headers of a request, as they stand in the list.
fn headers_of(list: Result<HeaderList, AllocError>) -> Result<RequestHeaders, AllocError> {
    match list {
        Ok(list) => {
            let headers = RequestHeaders::from_list(&list);
            drop(list);
            headers
        }
        Err(error) => Err(error),
    }
}

fn request_with(
    alloc: Global,
    method: &str,
    headers: Result<HeaderList, AllocError>,
) -> Result<Request, AllocError> {
    match headers_of(headers) {
        Ok(headers) => request_of(alloc, method_of(alloc, method), headers),
        Err(error) => Err(error),
    }
}

// The list goes on with a header whose name is asked for.
fn append_asked(
    alloc: Global,
    list: &mut HeaderList,
    name: Result<Octets, AllocError>,
) -> Result<(), AllocError> {
    match name {
        Ok(name) => {
            let asked_for = b"Access-Control-Request-Headers";
            let appended = append(alloc, list, asked_for, name.as_bytes());
            drop(name);
            appended
        }
        Err(error) => Err(error),
    }
}

fn list_with_name(
    alloc: Global,
    mut list: HeaderList,
    name: Result<Octets, AllocError>,
) -> Result<HeaderList, AllocError> {
    match append_asked(alloc, &mut list, name) {
        Ok(()) => Ok(list),
        Err(error) => {
            drop(list);
            Err(error)
        }
    }
}

fn list_with_long_name(alloc: Global, count: usize) -> Result<HeaderList, AllocError> {
    match header_list(alloc, &[A, PUT]) {
        Ok(list) => list_with_name(alloc, list, long_name(alloc, count)),
        Err(error) => Err(error),
    }
}

// The same of the headers as the plain program is given them.
fn push_asked(
    alloc: Global,
    list: &mut Vec<Header>,
    name: Result<Octets, AllocError>,
) -> Result<(), AllocError> {
    match name {
        Ok(name) => {
            let asked_for = "access-control-request-headers";
            let pushed = push_pair(alloc, list, asked_for, name.as_bytes());
            drop(name);
            pushed
        }
        Err(error) => Err(error),
    }
}

fn pairs_with_name(
    alloc: Global,
    mut list: Vec<Header>,
    name: Result<Octets, AllocError>,
) -> Result<Vec<Header>, AllocError> {
    push_asked(alloc, &mut list, name)?;
    Ok(list)
}

fn pairs_with_long_name(alloc: Global, count: usize) -> Result<Vec<Header>, AllocError> {
    match pairs(alloc, &[A, PUT]) {
        Ok(list) => pairs_with_name(alloc, list, long_name(alloc, count)),
        Err(error) => Err(error),
    }
}

fn head_at(
    method: Octets,
    target: Result<Octets, AllocError>,
    headers: Vec<Header>,
) -> Result<Head, AllocError> {
    match target {
        Ok(target) => Ok(Head {
            method,
            target,
            minor: 1,
            headers,
        }),
        Err(error) => {
            drop(method);
            drop(headers);
            Err(error)
        }
    }
}

fn head_of(
    alloc: Global,
    method: Result<Octets, AllocError>,
    headers: Vec<Header>,
) -> Result<Head, AllocError> {
    match method {
        Ok(method) => head_at(method, Octets::of(alloc, b"/"), headers),
        Err(error) => {
            drop(headers);
            Err(error)
        }
    }
}

fn head_with(
    alloc: Global,
    method: &str,
    headers: Result<Vec<Header>, AllocError>,
) -> Result<Head, AllocError> {
    match headers {
        Ok(headers) => head_of(alloc, Octets::of(alloc, method.as_bytes()), headers),
        Err(error) => Err(error),
    }
}

impl Asked {
    /// The request as the middleware is given it.
    pub(crate) fn request(self, alloc: Global) -> Result<Request, AllocError> {
        match self {
            By(method, fields) => request_with(alloc, method, header_list(alloc, fields)),
            ForLongName(count) => {
                request_with(alloc, "OPTIONS", list_with_long_name(alloc, count))
            }
        }
    }

    /// The request's head as the plain program is given it.
    pub(crate) fn head(self, alloc: Global) -> Result<Head, AllocError> {
        match self {
            By(method, fields) => head_with(alloc, method, pairs(alloc, fields)),
            ForLongName(count) => head_with(alloc, "OPTIONS", pairs_with_long_name(alloc, count)),
        }
    }
}
