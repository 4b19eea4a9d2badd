//! The middleware's answers beside those of the plain program. `checks/cors-table.py` computes the expected numbers from
//! the table alone.

use crate::inner::{Giving, REPLIES, Reply, empty_response, once_set, set_headers};
use crate::policies::POLICIES;
use crate::requests::{Asked, LONG_NAMES, append, requests};
use crate::shown::holds;
use crate::steps::{ByRule, Step, built, plain};
use crate::tally::{Outcome, Place, Tally};
use cors_answer::{Cors, CorsFault, CorsInitError, CorsMiddleware};
use cors_plain::{
    Head, Header, Policy, Response as Plain, Verdict, answer, is_preflight, verdict_on,
};
use futures::task::Poll;
use futures::test::MockTask;
use http::method::Method;
use http1_plain::{HeaderList, HttpVersion, Request, Response, write_response};
use service_core::{Octets, Service, Transform};
use std::alloc::{AllocError, Global};
use std::test::Fail;

fn written(alloc: Global, response: &Response) -> Result<Octets, AllocError> {
    let mut out = Octets::new(alloc);
    match write_response(&mut out, &Method::GET, HttpVersion::Http11, response, false) {
        Ok(()) => Ok(out),
        Err(error) => {
            drop(out);
            Err(error)
        }
    }
}

type Middleware = CorsMiddleware<Giving, ByRule>;

/// What a future of the middleware gives.
type Answer = Result<Response, CorsFault>;

fn of_text(is_error: bool, text: Result<Octets, AllocError>) -> Result<Outcome, AllocError> {
    match text {
        Ok(text) => Ok((is_error, text)),
        Err(error) => Err(error),
    }
}

fn outcome(alloc: Global, is_error: bool, response: &Response) -> Result<Outcome, AllocError> {
    of_text(is_error, written(alloc, response))
}

fn outcome_of_fault(alloc: Global, fault: &CorsFault) -> Result<Outcome, AllocError> {
    match fault {
        CorsFault::Answered(response) => outcome(alloc, true, response),
        CorsFault::Memory => Err(AllocError),
    }
}

fn outcome_of_answer(alloc: Global, answer: &Answer) -> Result<Outcome, AllocError> {
    match answer {
        Ok(response) => outcome(alloc, false, response),
        Err(fault) => outcome_of_fault(alloc, fault),
    }
}

fn outcome_of(alloc: Global, polled: &Poll<Answer>) -> Result<Outcome, AllocError> {
    match polled {
        Poll::Ready(answer) => outcome_of_answer(alloc, answer),
        Poll::Pending => of_text(true, Octets::of(alloc, b"pending")),
    }
}

// What the middleware's future gives at its first poll.
fn polled(task: &MockTask, service: &Middleware, request: Request) -> Poll<Answer> {
    let mut future = service.call(request);
    let polled = task.poll(&mut future);
    drop(future);
    polled
}

// What the middleware answers to the request.
fn answered(
    task: &MockTask,
    alloc: Global,
    service: &Middleware,
    request: Request,
) -> Result<Outcome, AllocError> {
    let polled = polled(task, service, request);
    let outcome = outcome_of(alloc, &polled);
    drop(polled);
    outcome
}

// What the middleware answers.
fn asked(
    task: &MockTask,
    alloc: Global,
    service: &Middleware,
    asked: Asked,
) -> Result<Outcome, AllocError> {
    match asked.request(alloc) {
        Ok(request) => answered(task, alloc, service, request),
        Err(error) => Err(error),
    }
}

fn append_all(alloc: Global, list: &mut HeaderList, pairs: &[Header]) -> Result<(), AllocError> {
    for (name, value) in pairs {
        append(alloc, list, name.as_bytes(), value.as_bytes())?;
    }
    Ok(())
}

fn header_list(alloc: Global, pairs: &[Header]) -> Result<HeaderList, AllocError> {
    let mut list = HeaderList::new(alloc);
    match append_all(alloc, &mut list, pairs) {
        Ok(()) => Ok(list),
        Err(error) => {
            drop(list);
            Err(error)
        }
    }
}

fn set_body(response: &mut Response, body: &Octets) -> Result<(), AllocError> {
    match body.copy() {
        Ok(body) => Ok(response.set_body(body)),
        Err(error) => Err(error),
    }
}

// The response gets the headers and the body of the plain one.
fn set_parts(alloc: Global, response: &mut Response, plain: &Plain) -> Result<(), AllocError> {
    set_headers(response, header_list(alloc, &plain.headers))?;
    set_body(response, &plain.body)
}

fn with_parts(
    alloc: Global,
    mut response: Response,
    plain: &Plain,
) -> Result<Response, AllocError> {
    let set = set_parts(alloc, &mut response, plain);
    once_set(response, set)
}

// The plain response, to be written.
fn response_of(alloc: Global, plain: &Plain) -> Result<Response, AllocError> {
    match empty_response(alloc, plain.status) {
        Ok(response) => with_parts(alloc, response, plain),
        Err(error) => Err(error),
    }
}

fn is_handed_on(verdict: &Verdict) -> bool {
    match verdict {
        Verdict::Answered(_) => false,
        Verdict::HandedOn(_) => true,
    }
}

fn plain_text(alloc: Global, plain: &Plain) -> Result<Octets, AllocError> {
    match response_of(alloc, plain) {
        Ok(response) => {
            let text = written(alloc, &response);
            drop(response);
            text
        }
        Err(error) => Err(error),
    }
}

fn plain_answer(
    alloc: Global,
    policy: &Policy,
    head: &Head,
    reply: Reply,
) -> Result<Plain, AllocError> {
    match reply.plain(alloc) {
        Ok(inner) => answer(alloc, policy, head, inner),
        Err(error) => Err(error),
    }
}

fn text_of_answer(
    alloc: Global,
    policy: &Policy,
    head: &Head,
    reply: Reply,
) -> Result<Octets, AllocError> {
    match plain_answer(alloc, policy, head, reply) {
        Ok(answered) => {
            let text = plain_text(alloc, &answered);
            drop(answered);
            text
        }
        Err(error) => Err(error),
    }
}

// What the plain program answers.
fn defined(
    alloc: Global,
    policy: &Policy,
    head: &Head,
    verdict: &Verdict,
    reply: Reply,
) -> Result<Outcome, AllocError> {
    let is_error = reply.is_error && is_handed_on(verdict);
    of_text(is_error, text_of_answer(alloc, policy, head, reply))
}

/// What each policy is tried with.
#[derive(Drop)]
struct Site<'a> {
    task: &'a MockTask,
    alloc: Global,
    replies: &'a [Reply],
    requests: &'a [Asked],
}

/// A service under a policy, and the plain policy.
#[derive(Drop)]
struct Pair<'a> {
    service: &'a Middleware,
    policy: &'a Policy,
    reply: Reply,
}

fn note_unless_equal(got: &Outcome, want: &Outcome, place: Place, tally: &mut Tally) {
    if *got != *want {
        tally.note_other(place);
    }
}

// Compares what the middleware answers.
fn compare_answer(
    site: &Site,
    pair: &Pair,
    request: Asked,
    place: Place,
    want: &Outcome,
    tally: &mut Tally,
) -> Result<(), AllocError> {
    match asked(site.task, site.alloc, pair.service, request) {
        Ok(got) => {
            note_unless_equal(&got, want, place, tally);
            drop(got);
            Ok(())
        }
        Err(error) => Err(error),
    }
}

// Asks the middleware, and counts what the plain program answers.
fn compare_with(
    site: &Site,
    pair: &Pair,
    request: Asked,
    place: Place,
    want: &Outcome,
    tally: &mut Tally,
) -> Result<(), AllocError> {
    compare_answer(site, pair, request, place, want, tally)?;
    tally.digest_answer(want);
    Ok(())
}

// What the plain program answers by its verdict, which is counted.
fn counted_by(
    alloc: Global,
    pair: &Pair,
    head: &Head,
    verdict: &Verdict,
    tally: &mut Tally,
) -> Result<Outcome, AllocError> {
    let policy = pair.policy;
    tally.count_pair(verdict, policy.preflight && is_preflight(head));
    defined(alloc, policy, head, verdict, pair.reply)
}

// What the plain program answers to a request with the head, which is counted.
fn counted(
    alloc: Global,
    pair: &Pair,
    head: &Head,
    tally: &mut Tally,
) -> Result<Outcome, AllocError> {
    match verdict_on(alloc, pair.policy, head) {
        Ok(verdict) => {
            let outcome = counted_by(alloc, pair, head, &verdict, tally);
            drop(verdict);
            outcome
        }
        Err(error) => Err(error),
    }
}

// The same for a request.
fn counted_for(
    alloc: Global,
    pair: &Pair,
    request: Asked,
    tally: &mut Tally,
) -> Result<Outcome, AllocError> {
    match request.head(alloc) {
        Ok(head) => {
            let outcome = counted(alloc, pair, &head, tally);
            drop(head);
            outcome
        }
        Err(error) => Err(error),
    }
}

// Asks both, and counts the answer.
fn compare(
    site: &Site,
    pair: &Pair,
    request: Asked,
    place: Place,
    tally: &mut Tally,
) -> Result<(), AllocError> {
    match counted_for(site.alloc, pair, request, tally) {
        Ok(want) => {
            let compared = compare_with(site, pair, request, place, &want, tally);
            drop(want);
            compared
        }
        Err(error) => Err(error),
    }
}

/// A service under a policy, or why there is none.
type Made = Result<Middleware, CorsInitError>;

// The service under the policy.
fn made(cors: &Cors<ByRule>, inner: Giving) -> Made {
    cors.new_transform(inner).into_inner()
}

fn made_by(cors: &Result<Cors<ByRule>, AllocError>, inner: Giving) -> Made {
    match cors {
        Ok(cors) => made(cors, inner),
        Err(_) => Err(CorsInitError::Memory),
    }
}

// The service under the policy of these calls.
fn service_of(alloc: Global, steps: &[Step], reply: Reply) -> Made {
    let cors = built(alloc, steps);
    let service = made_by(&cors, Giving { alloc, reply });
    drop(cors);
    service
}

// Asks both with each request.
fn compare_all(
    site: &Site,
    pair: &Pair,
    at: (usize, usize),
    tally: &mut Tally,
) -> Result<(), AllocError> {
    for (number, request) in site.requests.iter().enumerate() {
        compare(site, pair, *request, (at.0, at.1, number), tally)?;
    }
    Ok(())
}

// Asks the service and the plain policy, where that was made, with each request.
fn compare_to(
    site: &Site,
    service: &Middleware,
    policy: &Result<Policy, AllocError>,
    reply: Reply,
    at: (usize, usize),
    tally: &mut Tally,
) -> Result<(), AllocError> {
    match policy {
        Ok(policy) => {
            let pair = Pair {
                service,
                policy,
                reply,
            };
            compare_all(site, &pair, at, tally)
        }
        Err(error) => Err(*error),
    }
}

// Asks the service and the plain policy of these calls with each request.
fn compare_under(
    site: &Site,
    service: &Middleware,
    steps: &[Step],
    reply: Reply,
    at: (usize, usize),
    tally: &mut Tally,
) -> Result<(), AllocError> {
    let policy = plain(site.alloc, steps);
    let compared = compare_to(site, service, &policy, reply, at, tally);
    drop(policy);
    compared
}

// A policy that is refused is another answer behind those of the requests.
fn note_refused(
    site: &Site,
    error: &CorsInitError,
    at: (usize, usize),
    tally: &mut Tally,
) -> Result<(), AllocError> {
    match error {
        CorsInitError::Config(_) => {
            tally.note_other((at.0, at.1, site.requests.len()));
            Ok(())
        }
        CorsInitError::Memory => Err(AllocError),
    }
}

// The same, where the service was made.
fn compare_made(
    site: &Site,
    service: &Made,
    steps: &[Step],
    reply: Reply,
    at: (usize, usize),
    tally: &mut Tally,
) -> Result<(), AllocError> {
    match service {
        Ok(service) => compare_under(site, service, steps, reply, at, tally),
        Err(error) => note_refused(site, error, at, tally),
    }
}

// The reply under the policy with each request.
fn compare_reply(
    site: &Site,
    steps: &[Step],
    reply: Reply,
    at: (usize, usize),
    tally: &mut Tally,
) -> Result<(), AllocError> {
    let service = service_of(site.alloc, steps, reply);
    let compared = compare_made(site, &service, steps, reply, at, tally);
    drop(service);
    compared
}

// Each reply under the policy with the number.
fn compare_policy(
    site: &Site,
    policy: usize,
    steps: &[Step],
    tally: &mut Tally,
) -> Result<(), AllocError> {
    for (number, reply) in site.replies.iter().enumerate() {
        compare_reply(site, steps, *reply, (policy, number), tally)?;
    }
    Ok(())
}

// Each of these policies with each reply and each request.
fn compare_policies(
    site: &Site,
    policies: &[&[Step]],
    tally: &mut Tally,
) -> Result<(), AllocError> {
    for (number, steps) in policies.iter().enumerate() {
        compare_policy(site, number, steps, tally)?;
    }
    Ok(())
}

// Each policy with each reply and each request.
fn compare_each(site: &Site, tally: &mut Tally) -> Result<(), AllocError> {
    compare_policies(site, &POLICIES, tally)
}

fn table(site: &Site) -> Result<Tally, AllocError> {
    let mut tally = Tally::default();
    compare_each(site, &mut tally)?;
    Ok(tally)
}

// Whether the table of these requests has these counts and this digest.
fn has_tally(
    task: &MockTask,
    alloc: Global,
    replies: &[Reply],
    requests: &[Asked],
    expected: &Tally,
) -> Result<bool, AllocError> {
    let site = Site {
        task,
        alloc,
        replies,
        requests,
    };
    Ok(table(&site)? == *expected)
}

// Whether the table of all requests has these counts and this digest.
fn has_whole_tally(
    task: &MockTask,
    alloc: Global,
    replies: &[Reply],
    expected: &Tally,
) -> Result<bool, AllocError> {
    match requests(alloc) {
        Ok(requests) => {
            let shown = has_tally(task, alloc, replies, &requests, expected);
            drop(requests);
            shown
        }
        Err(error) => Err(error),
    }
}

// How often each kind of answer comes, and the digest of all answers. Both were computed from the table alone, by a program
// of its own in another language.
const EXPECTED: Tally = Tally {
    pairs: 6448,
    first_other: None,
    digest: 1703039733,
    granted: 1956,
    not_granted: 1360,
    preflights: 448,
    no_origin: 160,
    origin_not_allowed: 948,
    method_not_allowed: 712,
    bad_headers: 128,
    headers_not_allowed: 68,
    blocked: 668,
    other_refusals: 0,
};

// The same for names of 65,535 and 65,536 bytes.
const EXPECTED_OF_LONG_NAMES: Tally = Tally {
    pairs: 62,
    first_other: None,
    digest: 968548798,
    granted: 6,
    not_granted: 0,
    preflights: 10,
    no_origin: 0,
    origin_not_allowed: 18,
    method_not_allowed: 18,
    bad_headers: 5,
    headers_not_allowed: 5,
    blocked: 0,
    other_refusals: 0,
};

// Whether the table has the expected counts and digest.
fn is_as_expected(task: &MockTask, alloc: Global) -> Result<bool, AllocError> {
    has_whole_tally(task, alloc, &REPLIES, &EXPECTED)
}

#[test]
fn the_middleware_answers_each_pair_by_the_definition(rt: HostRuntime) -> Result<(), Fail> {
    let task = MockTask::new(&rt)?;
    let shown = is_as_expected(&task, rt.alloc());
    drop(task);
    holds(&rt, shown)
}

// Whether the table of long names has the expected counts and digest.
fn are_long_names_as_expected(task: &MockTask, alloc: Global) -> Result<bool, AllocError> {
    has_tally(
        task,
        alloc,
        &REPLIES[..1],
        &LONG_NAMES,
        &EXPECTED_OF_LONG_NAMES,
    )
}

#[test]
fn names_at_the_limit_of_their_length_are_answered_by_the_definition(
    rt: HostRuntime,
) -> Result<(), Fail> {
    let task = MockTask::new(&rt)?;
    let shown = are_long_names_as_expected(&task, rt.alloc());
    drop(task);
    holds(&rt, shown)
}
