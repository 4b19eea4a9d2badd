//! Policies that are built, refused and asked.
ghost use Rattle.std.specs.Prelude.{nat_eq, codes};
ghost use Rattle.std.specs.List.{ends_with};

use crate::asking::{Asked, Made, Verb, head, is_answered_under, list_of, service_under};
use crate::asks::{Ask, answers, is_so, is_so_after};
use crate::building::Call::{
    Age, AnyOrigin, Block, Credentials, Expose, ExposeAny, Headers, Methods, NoPreflight, NoVary,
    Origin, Permissive, Wildcard,
};
use crate::building::{Built, Call, built, ruled};
use crate::equalities::{are_equal, have_equal_policies};
use crate::inner::Inner;
use crate::shown::{every, hold, holds, not};
use cors_answer::{Cors, CorsFault, CorsInitError, CorsMiddleware, CorsRefusal};
use cors_policy::{ConfigError, CorsError, NoRule, OriginRule, Policy, asked_headers_in};
use futures::task::Poll;
use futures::test::MockTask;
use http_header::VARY;
use http1_plain::{ErrorResponse, FieldValue, HeaderList, RequestHead, Response};
use service_core::{NoMemory, Service};
use std::alloc::{AllocError, Global};
use std::test::Fail;

/// What a policy says of a request's origin, of its method and of the headers that it asks for.
pub(crate) type Checks = (
    Result<bool, CorsError>,
    Result<(), CorsError>,
    Result<(), CorsError>,
);

fn judges_origin(
    policy: &Policy<NoRule>,
    head: &RequestHead,
    want: Result<bool, CorsError>,
) -> bool {
    policy.validate_origin(head) == want
}

// Whether the method of a preflight is judged so where it was looked up.
fn judges_looked_up(
    policy: &Policy<NoRule>,
    head: &RequestHead,
    want: Result<(), CorsError>,
) -> bool {
    match Policy::<NoRule>::preflight_method(head) {
        Some(method) => policy.validate_allowed_method_value(method) == want,
        None => head.method.as_str() != "OPTIONS" || want.is_err(),
    }
}

fn judges_method(policy: &Policy<NoRule>, head: &RequestHead, want: Result<(), CorsError>) -> bool {
    policy.validate_allowed_method(head) == want && judges_looked_up(policy, head, want)
}

fn judges_headers(
    policy: &Policy<NoRule>,
    head: &RequestHead,
    want: Result<(), CorsError>,
) -> bool {
    policy.validate_allowed_headers(head) == want
        && policy.validate_allowed_headers_value(asked_headers_in(head)) == want
}

fn says(policy: &Policy<NoRule>, head: &RequestHead, checks: Checks) -> bool {
    judges_origin(policy, head, checks.0)
        && judges_method(policy, head, checks.1)
        && judges_headers(policy, head, checks.2)
}

fn grants(policy: &Policy<NoRule>, head: &RequestHead, origin: &[u8]) -> bool {
    policy.access_control_allow_origin(head) == Some(origin)
}

/// Whether the policy of a builder says so of the request.
pub(crate) fn cors_says(
    alloc: Global,
    cors: &Cors<NoRule>,
    asked: Asked,
    checks: Checks,
) -> Result<bool, AllocError> {
    match head(alloc, asked) {
        Ok(head) => {
            let shown = says(cors.policy(), &head, checks);
            drop(head);
            Ok(shown)
        }
        Err(error) => Err(error),
    }
}

#[test]
fn refusals_by_each_check(rt: HostRuntime) -> Result<(), Fail> {
    let calls = [Origin("https://a.example"), Block];
    let fields = [
        ("Origin", "https://www.unknown.com"),
        ("Access-Control-Request-Headers", "DNT"),
    ];
    let checks = (
        Err(CorsError::OriginNotAllowed),
        Err(CorsError::MissingRequestMethod),
        Err(CorsError::HeadersNotAllowed),
    );
    let ask = Ask::Says((Verb::Get, &fields), checks);
    holds(&rt, is_so_after(&rt, &calls, &ask))
}

/// Allows origins under `.rust-lang.org`.
#[derive(Clone, Copy, Debug, PartialEq, Eq)]
pub(crate) struct RustLang;

impl OriginRule for RustLang {
    ghost allowed = { λ rule origin head. ends_with nat_eq origin (codes ".rust-lang.org") };

    fn allows(&self, origin: &[u8], _head: &RequestHead) -> bool {
        origin.ends_with(b".rust-lang.org")
    }
}

const RUST_LANG: [Call; 4] = [
    Origin("https://www.rust-lang.org"),
    Methods(&["GET", "POST"]),
    Headers(&["authorization", "accept", "content-type"]),
    Age(Some(3600)),
];

// The origins under `.rust-lang.org`, and `https://www.rust-lang.org`, with two methods and three headers.
fn rust_lang(alloc: Global) -> Result<Cors<RustLang>, AllocError> {
    ruled(alloc, RustLang, &RUST_LANG)
}

fn rust_lang_gives(
    task: &MockTask,
    alloc: Global,
    asked: Asked,
    text: &str,
) -> Result<bool, AllocError> {
    let cors = rust_lang(alloc);
    let shown = is_answered_under(task, alloc, &cors, asked, text);
    drop(cors);
    shown
}

// Whether this text answers a request under that policy.
fn rust_lang_answers(rt: &HostRuntime, asked: Asked, text: &str) -> Result<bool, AllocError> {
    match MockTask::new(rt) {
        Ok(task) => {
            let shown = rust_lang_gives(&task, rt.alloc(), asked, text);
            drop(task);
            shown
        }
        Err(_) => Err(AllocError),
    }
}

#[test]
fn a_rule_allows_an_origin(rt: HostRuntime) -> Result<(), Fail> {
    let fields = [
        ("Origin", "https://blog.rust-lang.org"),
        ("Access-Control-Request-Method", "POST"),
    ];
    let text =
        "HTTP/1.1 200 OK\r\naccess-control-allow-origin: https://blog.rust-lang.org\r\naccess-control-allow-methods: GET, POST\r\naccess-control-allow-headers: accept, authorization, content-type\r\naccess-control-max-age: 3600\r\nvary: Origin, Access-Control-Request-Method, Access-Control-Request-Headers\r\ncontent-length: 0\r\n\r\n";
    holds(&rt, rust_lang_answers(&rt, (Verb::Options, &fields), text))
}

#[test]
fn no_rule_allows_an_origin(rt: HostRuntime) -> Result<(), Fail> {
    let fields = [
        ("Origin", "https://a.example"),
        ("Access-Control-Request-Method", "POST"),
    ];
    let text =
        "HTTP/1.1 400 Bad Request\r\ncontent-length: 42\r\n\r\nOrigin is not allowed to make this request";
    holds(&rt, rust_lang_answers(&rt, (Verb::Options, &fields), text))
}

// Whether this is the error that a builder keeps of an origin.
fn keeps_of_origin(
    rt: &HostRuntime,
    origin: &'static str,
    error: Option<ConfigError>,
) -> Result<bool, AllocError> {
    is_so_after(rt, &[Origin(origin)], &Ask::Keeps(error))
}

fn keeps_each_error(rt: &HostRuntime) -> Result<bool, AllocError> {
    let wildcard = Some(ConfigError::WildcardOrigin);
    let uri = Some(ConfigError::BadOriginUri);
    let value = Some(ConfigError::BadOriginValue);
    every(&[
        keeps_of_origin(rt, "*", wildcard),
        keeps_of_origin(rt, "a b", uri),
        keeps_of_origin(rt, "", uri),
        keeps_of_origin(rt, "//#*//é=", value),
    ])
}

fn keeps_no_error(rt: &HostRuntime) -> Result<bool, AllocError> {
    every(&[
        keeps_of_origin(rt, "localhost:3000", None),
        keeps_of_origin(rt, "/x", None),
    ])
}

#[test]
fn refused_origins(rt: HostRuntime) -> Result<(), Fail> {
    hold(&rt, &[keeps_each_error(&rt), keeps_no_error(&rt)])
}

#[test]
fn the_first_error_is_kept(rt: HostRuntime) -> Result<(), Fail> {
    let calls = [Origin("*"), Expose(&["a:b"]), Methods(&["a b"])];
    let ask = Ask::Keeps(Some(ConfigError::WildcardOrigin));
    holds(&rt, is_so_after(&rt, &calls, &ask))
}

fn made(alloc: Global, cors: &Cors<NoRule>) -> Made<NoRule> {
    service_under(
        cors,
        Inner {
            alloc,
            is_empty: false,
        },
    )
}

fn is_config(error: CorsInitError, wanted: ConfigError) -> Result<bool, AllocError> {
    match error {
        CorsInitError::Config(found) => Ok(found == wanted && found.text() == wanted.text()),
        CorsInitError::Memory => Err(AllocError),
    }
}

fn is_refused_for(made: &Made<NoRule>, error: ConfigError) -> Result<bool, AllocError> {
    match made {
        Ok(_) => Ok(false),
        Err(found) => is_config(*found, error),
    }
}

/// Whether no service is put under the policy, because of this error.
pub(crate) fn is_refused_under(
    alloc: Global,
    cors: &Cors<NoRule>,
    error: ConfigError,
) -> Result<bool, AllocError> {
    let made = made(alloc, cors);
    let shown = is_refused_for(&made, error);
    drop(made);
    shown
}

#[test]
fn credentials_for_all_by_a_wildcard(rt: HostRuntime) -> Result<(), Fail> {
    let ask = Ask::IsRefused(ConfigError::IllegalCombination);
    holds(&rt, is_so_after(&rt, &[Permissive, Wildcard], &ask))
}

#[test]
fn what_a_builder_takes_is_written(rt: HostRuntime) -> Result<(), Fail> {
    let calls = [
        Origin("https://a.example"),
        Expose(&["X-B", "x-a"]),
        Credentials,
        NoVary,
    ];
    let text =
        "HTTP/1.1 200 OK\r\ncontent-type: text/plain\r\naccess-control-allow-origin: https://a.example\r\naccess-control-expose-headers: x-a, x-b\r\naccess-control-allow-credentials: true\r\ncontent-length: 12\r\n\r\nHello world!";
    let fields = [("Origin", "https://a.example")];
    holds(&rt, answers(&rt, &calls, (Verb::Get, &fields), text))
}

#[test]
fn the_service_itself_answers_a_preflight(rt: HostRuntime) -> Result<(), Fail> {
    let text =
        "HTTP/1.1 200 OK\r\ncontent-type: text/plain\r\naccess-control-expose-headers: content-type\r\nvary: Origin, Access-Control-Request-Method, Access-Control-Request-Headers\r\ncontent-length: 12\r\n\r\nHello world!";
    let fields = [("Access-Control-Request-Method", "GET")];
    holds(
        &rt,
        answers(
            &rt,
            &[ExposeAny, NoPreflight],
            (Verb::Options, &fields),
            text,
        ),
    )
}

// A request of `https://a.example`, with PUT and a header asked for.
const PUT: [(&str, &str); 3] = [
    ("Origin", "https://a.example"),
    ("Access-Control-Request-Method", "PUT"),
    ("Access-Control-Request-Headers", "x-any"),
];

fn is_preflight(alloc: Global, verb: Verb) -> Result<bool, AllocError> {
    match head(alloc, (verb, &PUT)) {
        Ok(head) => {
            let shown = Policy::<NoRule>::is_request_preflight(&head);
            drop(head);
            Ok(shown)
        }
        Err(error) => Err(error),
    }
}

fn asks_to_put(alloc: Global, verb: Verb) -> Result<bool, AllocError> {
    match head(alloc, (verb, &PUT)) {
        Ok(head) => {
            let shown = Policy::<NoRule>::preflight_method(&head) == Some(b"PUT");
            drop(head);
            Ok(shown)
        }
        Err(error) => Err(error),
    }
}

#[test]
fn a_preflight_goes_by_options(rt: HostRuntime) -> Result<(), Fail> {
    let alloc = rt.alloc();
    hold(
        &rt,
        &[
            is_preflight(alloc, Verb::Options),
            asks_to_put(alloc, Verb::Options),
            not(is_preflight(alloc, Verb::Get)),
            not(asks_to_put(alloc, Verb::Get)),
        ],
    )
}

fn says_and_grants(
    alloc: Global,
    policy: &Policy<NoRule>,
    asked: Asked,
    checks: Checks,
    grant: &[u8],
) -> Result<bool, AllocError> {
    match head(alloc, asked) {
        Ok(head) => {
            let shown = says(policy, &head, checks) && grants(policy, &head, grant);
            drop(head);
            Ok(shown)
        }
        Err(error) => Err(error),
    }
}

type Copied = Result<Policy<NoRule>, AllocError>;

fn copy_says_and_grants(
    alloc: Global,
    copy: &Copied,
    asked: Asked,
    checks: Checks,
    grant: &[u8],
) -> Result<bool, AllocError> {
    match copy {
        Ok(policy) => says_and_grants(alloc, policy, asked, checks, grant),
        Err(error) => Err(*error),
    }
}

fn copy_of(alloc: Global, cors: &Built) -> Copied {
    match cors {
        Ok(cors) => cors.policy().copy(alloc),
        Err(error) => Err(*error),
    }
}

fn copy_after(alloc: Global, calls: &[Call]) -> Copied {
    let cors = built(alloc, calls);
    let copy = copy_of(alloc, &cors);
    drop(cors);
    copy
}

// Whether a copy of a policy after the calls says so of the request, and writes this grant.
fn copy_says(
    alloc: Global,
    calls: &[Call],
    asked: Asked,
    checks: Checks,
    grant: &[u8],
) -> Result<bool, AllocError> {
    let copy = copy_after(alloc, calls);
    let shown = copy_says_and_grants(alloc, &copy, asked, checks, grant);
    drop(copy);
    shown
}

#[test]
fn a_copy_of_a_policy_is_asked(rt: HostRuntime) -> Result<(), Fail> {
    let checks = (Ok(true), Ok(()), Ok(()));
    let asked = (Verb::Options, PUT.as_slice());
    holds(
        &rt,
        copy_says(
            rt.alloc(),
            &[Permissive],
            asked,
            checks,
            b"https://a.example",
        ),
    )
}

fn no_rule_allows(alloc: Global, origin: &[u8], asked: Asked) -> Result<bool, AllocError> {
    match head(alloc, asked) {
        Ok(head) => {
            let shown = NoRule.allows(origin, &head);
            drop(head);
            Ok(shown)
        }
        Err(error) => Err(error),
    }
}

#[test]
fn no_rule_and_no_error(rt: HostRuntime) -> Result<(), Fail> {
    let alloc = rt.alloc();
    let asked = (Verb::Get, PUT.as_slice());
    hold(
        &rt,
        &[
            not(no_rule_allows(alloc, b"https://a.example", asked)),
            not(is_so_after(&rt, &[], &Ask::HasConfigError)),
        ],
    )
}

fn vary_of(headers: &HeaderList) -> Option<&FieldValue> {
    headers.get(&VARY)
}

// Whether there are so many headers, and `vary` has this value.
fn has_vary(headers: &HeaderList, count: usize, value: &[u8]) -> bool {
    match vary_of(headers) {
        Some(found) => headers.len() == count && found.as_bytes() == value,
        None => false,
    }
}

fn varies_once_added(
    headers: &mut HeaderList,
    count: usize,
    value: &[u8],
) -> Result<bool, AllocError> {
    match Policy::<NoRule>::add_vary_header(headers) {
        Ok(()) => Ok(has_vary(headers, count, value)),
        Err(error) => Err(error),
    }
}

// Whether so many headers are left once `vary` is added, of this value.
fn varies(
    alloc: Global,
    fields: &[(&str, &str)],
    count: usize,
    value: &[u8],
) -> Result<bool, AllocError> {
    match list_of(alloc, fields) {
        Ok(mut headers) => {
            let shown = varies_once_added(&mut headers, count, value);
            drop(headers);
            shown
        }
        Err(error) => Err(error),
    }
}

#[test]
fn vary_goes_behind_what_was_there(rt: HostRuntime) -> Result<(), Fail> {
    let fields = [("vary", "Accept"), ("age", "1"), ("vary", "Cookie")];
    let value = b"Accept, Origin, Access-Control-Request-Method, Access-Control-Request-Headers";
    holds(&rt, varies(rt.alloc(), &fields, 2, value))
}

fn is_refusal(response: &Response, text: &[u8]) -> bool {
    response.status() == 400 && response.headers().len() == 0 && response.body() == text
}

// Whether a refusal for the error answers 400 with the text as its body and no headers.
fn is_told(alloc: Global, error: CorsError, text: &[u8]) -> Result<bool, AllocError> {
    match (CorsRefusal { error }).into_response(alloc) {
        Ok(response) => {
            let shown = is_refusal(&response, text);
            drop(response);
            Ok(shown)
        }
        Err(error) => Err(error),
    }
}

#[test]
fn a_refusal_answers_with_its_text(rt: HostRuntime) -> Result<(), Fail> {
    let text = b"Request header `Origin` is required but was not provided";
    holds(&rt, is_told(rt.alloc(), CorsError::MissingOrigin, text))
}

fn fault_has_status(alloc: Global, fault: CorsFault, status: u16) -> Result<bool, AllocError> {
    match fault.into_response(alloc) {
        Ok(response) => {
            let shown = response.status() == status;
            drop(response);
            Ok(shown)
        }
        Err(error) => Err(error),
    }
}

fn answered_has_status(alloc: Global) -> Result<bool, AllocError> {
    fault_has_status(alloc, CorsFault::Answered(Response::new(alloc, 404)), 404)
}

fn no_memory_has_no_response(alloc: Global) -> bool {
    CorsFault::no_memory().into_response(alloc).is_err()
}

fn no_memory_is_want_of_memory() -> bool {
    CorsInitError::from(AllocError) == CorsInitError::no_memory()
}

#[test]
fn a_fault_answers_with_its_response(rt: HostRuntime) -> Result<(), Fail> {
    let alloc = rt.alloc();
    hold(
        &rt,
        &[
            answered_has_status(alloc),
            Ok(no_memory_has_no_response(alloc)),
            Ok(no_memory_is_want_of_memory()),
        ],
    )
}

fn is_ready_at_once(polled: &Poll<Result<(), CorsFault>>) -> bool {
    match polled {
        Poll::Ready(Ok(())) => true,
        _ => false,
    }
}

fn is_ready(task: &MockTask, service: &CorsMiddleware<Inner, NoRule>) -> bool {
    let polled = task.enter(|cx| service.poll_ready(cx));
    let shown = is_ready_at_once(&polled);
    drop(polled);
    shown
}

// Whether the service is made and ready.
fn is_made_ready(task: &MockTask, made: &Made<NoRule>) -> Result<bool, AllocError> {
    match made {
        Ok(service) => Ok(is_ready(task, service)),
        Err(_) => Err(AllocError),
    }
}

/// Whether a service under the policy is ready.
pub(crate) fn is_ready_under(
    task: &MockTask,
    alloc: Global,
    cors: &Cors<NoRule>,
) -> Result<bool, AllocError> {
    let made = made(alloc, cors);
    let shown = is_made_ready(task, &made);
    drop(made);
    shown
}

#[test]
fn a_middleware_is_as_ready_as_its_service(rt: HostRuntime) -> Result<(), Fail> {
    holds(&rt, is_so_after(&rt, &[], &Ask::IsReady))
}

#[test]
fn policies_are_equal_by_all_that_they_say(rt: HostRuntime) -> Result<(), Fail> {
    let alloc = rt.alloc();
    hold(
        &rt,
        &[
            are_equal(alloc, &[], &[]),
            not(are_equal(alloc, &[], &[Wildcard])),
            not(are_equal(alloc, &[], &[Age(Some(0))])),
        ],
    )
}

#[test]
fn policies_that_allow_everything_are_equal(rt: HostRuntime) -> Result<(), Fail> {
    let alloc = rt.alloc();
    hold(
        &rt,
        &[
            are_equal(alloc, &[Permissive], &[Permissive]),
            not(are_equal(alloc, &[Permissive], &[])),
        ],
    )
}

#[test]
fn a_kept_error_is_no_part_of_a_policy(rt: HostRuntime) -> Result<(), Fail> {
    holds(&rt, are_equal(rt.alloc(), &[Origin("*")], &[]))
}

const A: Call = Origin("https://a.example");

const B: Call = Origin("https://b.example");

#[test]
fn the_order_of_a_builders_calls_is_no_matter(rt: HostRuntime) -> Result<(), Fail> {
    let alloc = rt.alloc();
    hold(
        &rt,
        &[
            are_equal(alloc, &[A, B], &[B, A, B]),
            have_equal_policies(alloc, &[A, B], &[B, A, B]),
            not(are_equal(alloc, &[A, B], &[AnyOrigin])),
        ],
    )
}

fn host(alloc: Global, k: u32) -> Result<String, AllocError> {
    format!(in alloc; "https://host-{k}.example")
}

fn and_host(cors: Cors<NoRule>, host: &Result<String, AllocError>) -> Built {
    match host {
        Ok(host) => cors.allowed_origin(host.as_str()),
        Err(error) => {
            drop(cors);
            Err(*error)
        }
    }
}

fn with_host(alloc: Global, cors: Cors<NoRule>, k: u32) -> Built {
    let host = host(alloc, k);
    let cors = and_host(cors, &host);
    drop(host);
    cors
}

fn many_origins(alloc: Global) -> Built {
    let mut cors = Cors::default(alloc);
    for k in 0..1000 {
        cors = with_host(alloc, cors, k)?;
    }
    Ok(cors)
}

// Whether a thousand origins are taken without an error, and this text then answers a request.
fn many_origins_answer(rt: &HostRuntime, asked: Asked, text: &str) -> Result<bool, AllocError> {
    let ask = Ask::AnswersWithoutError(asked, text);
    is_so(rt, many_origins(rt.alloc()), &ask)
}

#[test]
fn the_last_of_a_thousand_origins_is_granted(rt: HostRuntime) -> Result<(), Fail> {
    let fields = [("Origin", "https://host-999.example")];
    let text =
        "HTTP/1.1 200 OK\r\ncontent-type: text/plain\r\naccess-control-allow-origin: https://host-999.example\r\nvary: Origin, Access-Control-Request-Method, Access-Control-Request-Headers\r\ncontent-length: 12\r\n\r\nHello world!";
    holds(&rt, many_origins_answer(&rt, (Verb::Get, &fields), text))
}

#[test]
fn none_beyond_a_thousand_origins_is_granted(rt: HostRuntime) -> Result<(), Fail> {
    let fields = [("Origin", "https://host-1000.example")];
    let text =
        "HTTP/1.1 200 OK\r\ncontent-type: text/plain\r\nvary: Origin, Access-Control-Request-Method, Access-Control-Request-Headers\r\ncontent-length: 12\r\n\r\nHello world!";
    holds(&rt, many_origins_answer(&rt, (Verb::Get, &fields), text))
}
