//! Policies as lists of calls, of the builder and of the plain program.

ghost use Rattle.cors_plain.specs.Rules.{allowed_by};

use cors_answer::Cors;
use cors_plain::{Policy, Rule, Texts};
use cors_policy::OriginRule;
use cors_rules::AllOrSome;
use http1_plain::RequestHead;
use std::alloc::{AllocError, Global};

/// One call of a builder.
#[derive(Clone, Copy)]
pub(crate) enum Step {
    Permissive,
    AnyOrigin,
    Origin(&'static str),
    AlsoBy(Rule),
    AnyMethod,
    Method(&'static str),
    AnyHeader,
    Header(&'static str),
    ExposeAny,
    Expose(&'static str),
    Age(Option<u64>),
    Wildcard,
    Credentials,
    NoVary,
    NoPreflight,
    Block,
}

/// A rule of the plain program's policies, for the builder.
#[derive(Clone, Copy, Debug, PartialEq, Eq)]
pub(crate) struct ByRule {
    rule: Rule,
}

impl OriginRule for ByRule {
    ghost allowed = { λ by origin head. allowed_by by.rule origin head };

    fn allows(&self, origin: &[u8], head: &RequestHead) -> bool {
        match self.rule {
            Rule::UnderExample => origin.ends_with(b".example.org"),
            Rule::OfPosts => head.method.as_str() == "POST",
        }
    }
}

// The builder after the call, where it sets a flag or a number.
fn flagged(cors: Cors<ByRule>, step: Step) -> Cors<ByRule> {
    match step {
        Step::Age(age) => cors.max_age(age),
        Step::Wildcard => cors.send_wildcard(),
        Step::Credentials => cors.supports_credentials(),
        Step::NoVary => cors.disable_vary_header(),
        Step::NoPreflight => cors.disable_preflight(),
        Step::Block => cors.block_on_origin_mismatch(true),
        _ => cors,
    }
}

// The builder after the call, where it allows everything, or sets a flag or a number.
fn opened(cors: Cors<ByRule>, step: Step) -> Cors<ByRule> {
    match step {
        Step::AnyOrigin => cors.allow_any_origin(),
        Step::AnyHeader => cors.allow_any_header(),
        Step::ExposeAny => cors.expose_any_header(),
        _ => flagged(cors, step),
    }
}

// The builder after the call, where it adds no text to the origins or the methods.
fn with_headers(cors: Cors<ByRule>, step: Step) -> Result<Cors<ByRule>, AllocError> {
    match step {
        Step::AlsoBy(rule) => cors.allowed_origin_fn(ByRule { rule }),
        Step::Header(text) => cors.allowed_header(text),
        Step::Expose(text) => cors.expose_headers(&[text]),
        _ => Ok(opened(cors, step)),
    }
}

// The builder after the call, where it goes on with what was allowed before.
fn continued(cors: Cors<ByRule>, step: Step) -> Result<Cors<ByRule>, AllocError> {
    match step {
        Step::Origin(text) => cors.allowed_origin(text),
        Step::AnyMethod => cors.allow_any_method(),
        Step::Method(text) => cors.allowed_methods(&[text]),
        _ => with_headers(cors, step),
    }
}

// The builder after the call.
fn called(alloc: Global, cors: Cors<ByRule>, step: Step) -> Result<Cors<ByRule>, AllocError> {
    match step {
        Step::Permissive => {
            drop(cors);
            Cors::permissive(alloc)
        }
        _ => continued(cors, step),
    }
}

/// The builder after the calls.
pub(crate) fn built(alloc: Global, steps: &[Step]) -> Result<Cors<ByRule>, AllocError> {
    let mut cors = Cors::default(alloc);
    for step in steps {
        cors = called(alloc, cors, *step)?;
    }
    Ok(cors)
}

// The methods of HTTP (RFC 9110, section 9, and RFC 5789).
const METHODS: [&[u8]; 9] = [
    b"GET", b"HEAD", b"POST", b"PUT", b"DELETE", b"CONNECT", b"OPTIONS", b"TRACE", b"PATCH",
];

fn with_methods(
    alloc: Global,
    mut policy: Policy,
    methods: &[&[u8]],
) -> Result<Policy, AllocError> {
    for method in methods {
        policy = policy.with_method(alloc, method)?;
    }
    Ok(policy)
}

fn clear(methods: &mut Texts, alloc: Global) {
    *methods = Texts::new(alloc);
}

fn with_all_methods(alloc: Global, mut policy: Policy) -> Result<Policy, AllocError> {
    clear(&mut policy.methods, alloc);
    with_methods(alloc, policy, &METHODS)
}

fn allow_all(set: &mut AllOrSome<Texts>) {
    *set = AllOrSome::All;
}

// All but the methods is allowed.
fn open(policy: &mut Policy) {
    allow_all(&mut policy.origins);
    allow_all(&mut policy.headers);
    allow_all(&mut policy.exposed);
    policy.max_age = Some(3600);
    policy.credentials = true;
}

fn permissive(alloc: Global) -> Result<Policy, AllocError> {
    let mut policy = Policy::strict(alloc);
    open(&mut policy);
    with_all_methods(alloc, policy)
}

// The call sets a flag, a number or everything.
fn set_flag(policy: &mut Policy, step: Step) {
    match step {
        Step::AnyOrigin => allow_all(&mut policy.origins),
        Step::AnyHeader => allow_all(&mut policy.headers),
        Step::ExposeAny => allow_all(&mut policy.exposed),
        Step::Age(age) => policy.max_age = age,
        Step::Wildcard => policy.wildcard = true,
        Step::Credentials => policy.credentials = true,
        Step::NoVary => policy.vary = false,
        Step::NoPreflight => policy.preflight = false,
        Step::Block => policy.block = true,
        _ => {}
    }
}

// The plain policy after the call, where it sets a flag, a number or everything.
fn with_flag(mut policy: Policy, step: Step) -> Policy {
    set_flag(&mut policy, step);
    policy
}

// The plain policy after the call, where it is neither about all methods nor about origins.
fn with_text(alloc: Global, policy: Policy, step: Step) -> Result<Policy, AllocError> {
    match step {
        Step::Method(text) => policy.with_method(alloc, text.as_bytes()),
        Step::Header(text) => policy.with_header(alloc, text.as_bytes()),
        Step::Expose(text) => policy.with_exposed(alloc, text.as_bytes()),
        _ => Ok(with_flag(policy, step)),
    }
}

// The plain policy after the call, where it goes on with what was allowed before.
fn with_more(alloc: Global, policy: Policy, step: Step) -> Result<Policy, AllocError> {
    match step {
        Step::Origin(text) => policy.with_origin(alloc, text.as_bytes()),
        Step::AlsoBy(rule) => policy.with_rule(rule),
        Step::AnyMethod => with_all_methods(alloc, policy),
        _ => with_text(alloc, policy, step),
    }
}

// The plain policy after the call.
fn with_step(alloc: Global, policy: Policy, step: Step) -> Result<Policy, AllocError> {
    match step {
        Step::Permissive => {
            drop(policy);
            permissive(alloc)
        }
        _ => with_more(alloc, policy, step),
    }
}

/// The plain policy after the calls.
pub(crate) fn plain(alloc: Global, steps: &[Step]) -> Result<Policy, AllocError> {
    let mut policy = Policy::strict(alloc);
    for step in steps {
        policy = with_step(alloc, policy, *step)?;
    }
    Ok(policy)
}
