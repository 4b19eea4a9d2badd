//! What a line of a script says of its policy.
ghost use Rattle.std.specs.Prelude.{◌≡◌, Err, IfOk, map};
ghost use Rattle.cors_rules.specs.Building.{and_all_exposed, and_headers, and_methods};
ghost use Rattle.script.specs.PolicyText.{and_line, is_permissive, words};

use crate::policy::ScriptRule;
use crate::text::PlainText;
use cors_answer::Cors;
use std::alloc::{AllocError, Global};

/// A call of a policy's builder, as a line of a script asks for it.
#[derive(Drop)]
pub enum PolicyLine {
    /// The policy starts from one that allows everything.
    Permissive,
    /// All origins are allowed.
    AnyOrigin,
    /// One more origin.
    Origin(PlainText),
    /// One more rule.
    Rule(ScriptRule),
    /// All methods are allowed.
    AnyMethod,
    /// More methods, with one space between two.
    Methods(PlainText),
    /// All request headers are allowed.
    AnyHeader,
    /// One more request header.
    Header(PlainText),
    /// More request headers, with one space between two.
    Headers(PlainText),
    /// Pages may read all response headers.
    ExposeAny,
    /// Pages may read more response headers, with one space between two.
    Expose(PlainText),
    /// How many seconds a preflight's answer may be kept, if that is told.
    MaxAge(Option<u64>),
    /// A grant to all is written as `*`.
    Wildcard,
    /// Pages may send credentials.
    Credentials,
    /// Answers do not name what they depend on.
    NoVary,
    /// Preflights go to the handler.
    NoPreflight,
    /// A request is refused where its origin is not granted.
    Block,
}

// The words of a text, with one space between two.
fn split_words<'a>(alloc: Global, text: &'a PlainText) -> Result<Vec<&'a str>, AllocError>
    ensures { IfOk result (λ list. map (λ word. word.now) list.items ≡ words text.entry.now) }
{
    text.as_str().split(' ').collect(alloc)
}

// Memory ran out, and the builder is let go.
fn let_go(cors: Cors<ScriptRule>, error: AllocError) -> Result<Cors<ScriptRule>, AllocError>
    ensures { result ≡ Err error }
{
    drop(cors);
    Err(error)
}

// The builder with these methods.
fn with_methods(
    alloc: Global,
    cors: Cors<ScriptRule>,
    text: &PlainText,
) -> Result<Cors<ScriptRule>, AllocError>
    ensures { IfOk result (λ new. new ≡ and_methods cors (words text.now)) }
{
    match split_words(alloc, text) {
        Ok(list) => cors.allowed_methods(&list),
        Err(error) => let_go(cors, error),
    }
}

// The builder with these request headers.
fn with_headers(
    alloc: Global,
    cors: Cors<ScriptRule>,
    text: &PlainText,
) -> Result<Cors<ScriptRule>, AllocError>
    ensures { IfOk result (λ new. new ≡ and_headers cors (words text.now)) }
{
    match split_words(alloc, text) {
        Ok(list) => cors.allowed_headers(&list),
        Err(error) => let_go(cors, error),
    }
}

// The builder with these response headers.
fn with_exposed(
    alloc: Global,
    cors: Cors<ScriptRule>,
    text: &PlainText,
) -> Result<Cors<ScriptRule>, AllocError>
    ensures { IfOk result (λ new. new ≡ and_all_exposed cors (words text.now)) }
{
    match split_words(alloc, text) {
        Ok(list) => cors.expose_headers(&list),
        Err(error) => let_go(cors, error),
    }
}

impl PolicyLine {
    /// Whether it starts from everything, so that no other line may stand before it.
    pub fn is_permissive(&self) -> bool
        ensures { result ≡ is_permissive self.now }
    {
        matches!(self, PolicyLine::Permissive)
    }

    /// The builder after this call.
    #[tactic(auto, unfolding(crate::specs::PolicyText::and_line))]
    pub fn added_to(
        &self,
        alloc: Global,
        cors: Cors<ScriptRule>,
    ) -> Result<Cors<ScriptRule>, AllocError>
        ensures { IfOk result (λ new. new ≡ and_line cors self.now) }
    {
        match self {
            PolicyLine::Permissive => {
                drop(cors);
                Cors::permissive(alloc)
            }
            PolicyLine::AnyOrigin => Ok(cors.allow_any_origin()),
            PolicyLine::Origin(origin) => cors.allowed_origin(origin.as_str()),
            PolicyLine::Rule(rule) => cors.allowed_origin_fn(*rule),
            PolicyLine::AnyMethod => cors.allow_any_method(),
            PolicyLine::Methods(text) => with_methods(alloc, cors, text),
            PolicyLine::AnyHeader => Ok(cors.allow_any_header()),
            PolicyLine::Header(name) => cors.allowed_header(name.as_str()),
            PolicyLine::Headers(text) => with_headers(alloc, cors, text),
            PolicyLine::ExposeAny => Ok(cors.expose_any_header()),
            PolicyLine::Expose(text) => with_exposed(alloc, cors, text),
            PolicyLine::MaxAge(seconds) => Ok(cors.max_age(*seconds)),
            PolicyLine::Wildcard => Ok(cors.send_wildcard()),
            PolicyLine::Credentials => Ok(cors.supports_credentials()),
            PolicyLine::NoVary => Ok(cors.disable_vary_header()),
            PolicyLine::NoPreflight => Ok(cors.disable_preflight()),
            PolicyLine::Block => Ok(cors.block_on_origin_mismatch(true)),
        }
    }
}
