//! Builders as lists of calls.
use cors_answer::Cors;
use cors_policy::{NoRule, OriginRule};
use std::alloc::{AllocError, Global};

/// One call of a builder.
#[derive(Clone, Copy)]
pub(crate) enum Call {
    Permissive,
    AnyOrigin,
    Origin(&'static str),
    AnyMethod,
    Methods(&'static [&'static str]),
    AnyHeader,
    Header(&'static str),
    Headers(&'static [&'static str]),
    ExposeAny,
    Expose(&'static [&'static str]),
    Age(Option<u64>),
    Wildcard,
    Credentials,
    NoVary,
    NoPreflight,
    Block,
}

// The builder after the call, where it sets a flag or a number.
fn flagged<G: OriginRule>(cors: Cors<G>, call: Call) -> Cors<G> {
    match call {
        Call::Age(age) => cors.max_age(age),
        Call::Wildcard => cors.send_wildcard(),
        Call::Credentials => cors.supports_credentials(),
        Call::NoVary => cors.disable_vary_header(),
        Call::NoPreflight => cors.disable_preflight(),
        Call::Block => cors.block_on_origin_mismatch(true),
        _ => cors,
    }
}

// The builder after the call, where it allows everything, or sets a flag or a number.
fn opened<G: OriginRule>(cors: Cors<G>, call: Call) -> Cors<G> {
    match call {
        Call::AnyOrigin => cors.allow_any_origin(),
        Call::AnyHeader => cors.allow_any_header(),
        Call::ExposeAny => cors.expose_any_header(),
        _ => flagged(cors, call),
    }
}

// The builder after the call, where it adds no text to the origins or the methods.
fn with_headers<G: OriginRule>(cors: Cors<G>, call: Call) -> Result<Cors<G>, AllocError> {
    match call {
        Call::Header(text) => cors.allowed_header(text),
        Call::Headers(texts) => cors.allowed_headers(texts),
        Call::Expose(texts) => cors.expose_headers(texts),
        _ => Ok(opened(cors, call)),
    }
}

// The builder after the call, where it goes on with what was allowed before.
fn continued<G: OriginRule>(cors: Cors<G>, call: Call) -> Result<Cors<G>, AllocError> {
    match call {
        Call::Origin(text) => cors.allowed_origin(text),
        Call::AnyMethod => cors.allow_any_method(),
        Call::Methods(texts) => cors.allowed_methods(texts),
        _ => with_headers(cors, call),
    }
}

// The builder after the call.
fn called<G: OriginRule>(alloc: Global, cors: Cors<G>, call: Call) -> Result<Cors<G>, AllocError> {
    match call {
        Call::Permissive => {
            drop(cors);
            Cors::permissive(alloc)
        }
        _ => continued(cors, call),
    }
}

// The builder after the calls.
fn after<G: OriginRule>(
    alloc: Global,
    mut cors: Cors<G>,
    calls: &[Call],
) -> Result<Cors<G>, AllocError> {
    for call in calls {
        cors = called(alloc, cors, *call)?;
    }
    Ok(cors)
}

/// A builder with this rule, after the calls.
pub(crate) fn ruled<G: OriginRule>(
    alloc: Global,
    rule: G,
    calls: &[Call],
) -> Result<Cors<G>, AllocError> {
    match Cors::default(alloc).allowed_origin_fn(rule) {
        Ok(cors) => after(alloc, cors, calls),
        Err(error) => Err(error),
    }
}

/// A builder without rules that was made.
pub(crate) type Built = Result<Cors<NoRule>, AllocError>;

/// A builder without rules after the calls. Who asks it hands it to `drop`, where its end is proved once for all.
pub(crate) fn built(alloc: Global, calls: &[Call]) -> Built {
    after(alloc, Cors::default(alloc), calls)
}
