ghost use Rattle.std.specs.Prelude.{◌≡◌, ◌++◌, ◌∷◌, [], IfOk};
ghost use Rattle.http_header.specs.Token.{lowercase};
ghost use Rattle.cors_rules.specs.Policy.{strict};
ghost use Rattle.cors_rules.specs.Sets.{with};
ghost use Rattle.cors_rules.specs.Building.{and_text};

use crate::bytes::lowercase;
use crate::rule::Rule;
use crate::texts::Texts;
use cors_rules::AllOrSome;
use std::alloc::{AllocError, Global};
use std::marker::Model;

/// A policy, with lists. Contracts see that of the definitions.
#[derive(Drop)]
pub struct Policy {
    /// The origins that are granted.
    pub origins: AllOrSome<Texts>,
    /// Each may allow further origins.
    pub rules: Vec<Rule>,
    /// The methods that a preflight may ask for.
    pub methods: Texts,
    /// The request headers that it may ask for, in lower case.
    pub headers: AllOrSome<Texts>,
    /// The response headers that a page may read, in lower case.
    pub exposed: AllOrSome<Texts>,
    /// How many seconds a preflight's answer may be kept.
    pub max_age: Option<u64>,
    /// Whether preflights are answered here.
    pub preflight: bool,
    /// Whether a grant to all is written as `*`.
    pub wildcard: bool,
    /// Whether pages may send credentials.
    pub credentials: bool,
    /// Whether answers name what they depend on.
    pub vary: bool,
    /// Whether a request is refused where its origin is not granted.
    pub block: bool,
}

impl Model for Policy {
    ghost use Rattle.cors_rules.specs.Policy as seen;
    ghost use Rattle.cors_plain.specs.declared.rule.Rule.{Rule as Allowing};

    ghost Value = { seen.Policy Allowing };

    ghost view = { λ p. record {
      origins = p.origins;
      rules = p.rules.items;
      methods = p.methods;
      headers = p.headers;
      exposed = p.exposed;
      max_age = p.max_age;
      preflight = p.preflight;
      wildcard = p.wildcard;
      credentials = p.credentials;
      vary = p.vary;
      block = p.block;
    } };
}

impl Policy {
    /// Nothing is allowed.
    pub fn strict(alloc: Global) -> Policy
        ensures { result ≡ strict }
    {
        Policy {
            origins: AllOrSome::Some(Texts::new(alloc)),
            rules: Vec::new(alloc),
            methods: Texts::new(alloc),
            headers: AllOrSome::Some(Texts::new(alloc)),
            exposed: AllOrSome::Some(Texts::new(alloc)),
            max_age: None,
            preflight: true,
            wildcard: false,
            credentials: false,
            vary: true,
            block: false,
        }
    }

    /// One more origin.
    pub fn with_origin(mut self, alloc: Global, text: &[u8]) -> Result<Policy, AllocError>
        ensures { IfOk result (λ policy. policy ≡ record self { origins = and_text self.origins text.now }) }
    {
        self.origins = and_text(alloc, &self.origins, text)?;
        Ok(self)
    }

    /// One more rule.
    pub fn with_rule(mut self, rule: Rule) -> Result<Policy, AllocError>
        ensures { IfOk result (λ policy. policy ≡ record self { rules = self.rules ++ rule ∷ [] }) }
    {
        self.rules.push(rule)?;
        Ok(self)
    }

    /// One more method.
    pub fn with_method(mut self, alloc: Global, text: &[u8]) -> Result<Policy, AllocError>
        ensures { IfOk result (λ policy. policy ≡ record self { methods = with self.methods text.now }) }
    {
        self.methods = self.methods.with(alloc, text)?;
        Ok(self)
    }

    /// One more request header, in any case.
    pub fn with_header(mut self, alloc: Global, text: &[u8]) -> Result<Policy, AllocError>
        ensures { IfOk result (λ policy. policy ≡ record self { headers = and_text self.headers (lowercase text.now) }) }
    {
        let name = lowercase(alloc, text)?;
        self.headers = and_text(alloc, &self.headers, name.as_bytes())?;
        Ok(self)
    }

    /// One more response header that a page may read, in any case.
    pub fn with_exposed(mut self, alloc: Global, text: &[u8]) -> Result<Policy, AllocError>
        ensures { IfOk result (λ policy. policy ≡ record self { exposed = and_text self.exposed (lowercase text.now) }) }
    {
        let name = lowercase(alloc, text)?;
        self.exposed = and_text(alloc, &self.exposed, name.as_bytes())?;
        Ok(self)
    }
}

// The finite set with the text.
fn and_text(
    alloc: Global,
    set: &AllOrSome<Texts>,
    text: &[u8],
) -> Result<AllOrSome<Texts>, AllocError>
    ensures { IfOk result (λ found. found ≡ and_text set.now text.now) }
{
    match set {
        AllOrSome::All => Ok(AllOrSome::Some(Texts::new(alloc).with(alloc, text)?)),
        AllOrSome::Some(texts) => Ok(AllOrSome::Some(texts.with(alloc, text)?)),
    }
}
