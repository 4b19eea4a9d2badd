//! The calls of the builder that take origins, methods and names of headers.
ghost use Rattle.std.specs.Prelude.{◌≡◌, true, false, None, Some, IfOk, OnOk, map};
ghost use Rattle.std.specs.List.{list_all};
ghost use Rattle.http_header.specs.Token.{is_token_byte, lowercase};
ghost use Rattle.cors_rules.specs.Building.{set_policy, and_text, is_origin_byte, and_uri, and_origin, and_method, and_header, and_exposed, and_rule, and_methods, and_headers, and_all_exposed};
ghost use Rattle.cors_rules.specs.Sets.{with};

use crate::cors::Cors;
use cors_policy::OriginRule;
use cors_rules::{AllOrSome, ConfigError};
use cors_sets::{
    TextSet, allow_text, are_origin_bytes, is_name, is_token, is_uri, lowered_value, origin_value,
    token_value,
};
use std::alloc::{AllocError, Global};

// One more origin in the set.
fn allow_origin(
    alloc: Global,
    origins: &mut AllOrSome<TextSet>,
    origin: &[u8],
) -> Result<(), AllocError>
    requires { list_all is_origin_byte origin.now ≡ true }
    ensures { OnOk result (origins.new ≡ and_text origins.old origin.now) }
{
    let origin = origin_value(alloc, origin)?;
    allow_text(alloc, origins, origin)
}

// One more method in the set.
fn allow_method(alloc: Global, methods: &mut TextSet, method: &[u8]) -> Result<(), AllocError>
    requires { list_all is_token_byte method.now ≡ true }
    ensures { OnOk result (methods.new ≡ with methods.old method.now) }
{
    let method = token_value(alloc, method)?;
    methods.insert(method)
}

// One more name of a header in the set.
fn allow_name(alloc: Global, names: &mut AllOrSome<TextSet>, name: &[u8]) -> Result<(), AllocError>
    requires { list_all is_token_byte name.now ≡ true }
    ensures { OnOk result (names.new ≡ and_text names.old (lowercase name.now)) }
{
    let name = lowered_value(alloc, name)?;
    allow_text(alloc, names, name)
}

impl<G: OriginRule> Cors<G> {
    fn add_checked_origin(&mut self, origin: &[u8]) -> Result<(), AllocError>
        requires { list_all is_origin_byte origin.now ≡ true }
        ensures { OnOk result (self.new ≡ set_policy self.old (record self.old.policy { origins = and_text self.old.policy.origins origin.now })) }
    {
        if self.error.is_some() {
            return Ok(());
        }
        allow_origin(self.alloc, &mut self.policy.origins, origin)
    }

    // One more origin, which is a URI.
    fn add_uri(&mut self, origin: &[u8]) -> Result<(), AllocError>
        ensures { OnOk result (self.new ≡ and_uri self.old origin.now) }
    {
        if origin == b"*".as_slice() {
            self.keep_error(ConfigError::WildcardOrigin);
            Ok(())
        } else if are_origin_bytes(origin) {
            self.add_checked_origin(origin)
        } else {
            self.keep_error(ConfigError::BadOriginValue);
            Ok(())
        }
    }

    // One more origin, or the error is kept that it is none.
    #[tactic(auto, unfolding(cors_rules::specs::Building::and_origin))]
    fn add_origin(&mut self, origin: &str) -> Result<(), AllocError>
        ensures { OnOk result (self.new ≡ and_origin self.old origin.now) }
    {
        if self.error.is_some() {
            return Ok(());
        }
        if is_uri(self.alloc, origin)? {
            return self.add_uri(origin.as_bytes());
        }
        self.keep_error(ConfigError::BadOriginUri);
        Ok(())
    }

    /// One more origin. A text that is no URI, `*`, or bytes that are not visible ASCII are kept as an error.
    pub fn allowed_origin(self, origin: &str) -> Result<Cors<G>, AllocError>
        ensures { IfOk result (λ cors. cors ≡ and_origin self origin.now) }
    {
        let mut cors = self;
        let added = cors.add_origin(origin);
        cors.after(added)
    }

    // One more rule, which may allow further origins.
    fn add_rule(&mut self, rule: G) -> Result<(), AllocError>
        ensures { OnOk result (self.new ≡ and_rule self.old rule) }
    {
        if self.error.is_some() {
            return Ok(());
        }
        self.policy.rules.push(rule)?;
        Ok(())
    }

    /// One more rule, which may allow further origins.
    pub fn allowed_origin_fn(self, rule: G) -> Result<Cors<G>, AllocError>
        ensures { IfOk result (λ cors. cors ≡ and_rule self rule) }
    {
        let mut cors = self;
        let added = cors.add_rule(rule);
        cors.after(added)
    }

    // One more method, or the error is kept that it is none.
    fn add_method(&mut self, method: &[u8]) -> Result<(), AllocError>
        ensures { OnOk result (self.new ≡ and_method self.old method.now) }
    {
        if !is_token(method) {
            self.keep_error(ConfigError::BadMethod);
            return Ok(());
        }
        if self.error.is_some() {
            return Ok(());
        }
        allow_method(self.alloc, &mut self.policy.methods, method)
    }

    // Each of them, in order.
    fn add_methods(&mut self, methods: &[&str]) -> Result<(), AllocError>
        ensures { OnOk result (self.new ≡ and_methods self.old (map (λ text. text.now) methods.now)) }
    {
        for method in methods {
            self.add_method(method.as_bytes())?;
        }
        Ok(())
    }

    /// Each method, up to the first text that is none.
    pub fn allowed_methods(self, methods: &[&str]) -> Result<Cors<G>, AllocError>
        ensures { IfOk result (λ cors. cors ≡ and_methods self (map (λ text. text.now) methods.now)) }
    {
        let mut cors = self;
        let added = cors.add_methods(methods);
        cors.after(added)
    }

    // One more request header, or the error is kept that the name is none.
    fn add_header(&mut self, name: &[u8]) -> Result<(), AllocError>
        ensures { OnOk result (self.new ≡ and_header self.old name.now) }
    {
        if !is_name(name) {
            self.keep_error(ConfigError::BadHeaderName);
            return Ok(());
        }
        if self.error.is_some() {
            return Ok(());
        }
        allow_name(self.alloc, &mut self.policy.headers, name)
    }

    /// One more request header.
    pub fn allowed_header(self, header: &str) -> Result<Cors<G>, AllocError>
        ensures { IfOk result (λ cors. cors ≡ and_header self header.now) }
    {
        let mut cors = self;
        let added = cors.add_header(header.as_bytes());
        cors.after(added)
    }

    // Each of them, in order.
    #[tactic(auto, using(std::proofs::lemmas::List::Sums::fold_more))]
    fn add_headers(&mut self, names: &[&str]) -> Result<(), AllocError>
        ensures { OnOk result (self.new ≡ and_headers self.old (map (λ text. text.now) names.now)) }
    {
        for name in names {
            self.add_header(name.as_bytes())?;
        }
        Ok(())
    }

    /// Each request header, up to the first text that names none.
    pub fn allowed_headers(self, names: &[&str]) -> Result<Cors<G>, AllocError>
        ensures { IfOk result (λ cors. cors ≡ and_headers self (map (λ text. text.now) names.now)) }
    {
        let mut cors = self;
        let added = cors.add_headers(names);
        cors.after(added)
    }

    // One more response header, or the error is kept that the name is none.
    fn add_exposed(&mut self, name: &[u8]) -> Result<(), AllocError>
        ensures { OnOk result (self.new ≡ and_exposed self.old name.now) }
    {
        if !is_name(name) {
            self.keep_error(ConfigError::BadHeaderName);
            return Ok(());
        }
        if self.error.is_some() {
            return Ok(());
        }
        allow_name(self.alloc, &mut self.policy.exposed, name)
    }

    // Each of them, in order.
    #[tactic(auto, using(std::proofs::lemmas::List::Sums::fold_more))]
    fn add_all_exposed(&mut self, names: &[&str]) -> Result<(), AllocError>
        ensures { OnOk result (self.new ≡ and_all_exposed self.old (map (λ text. text.now) names.now)) }
    {
        for name in names {
            self.add_exposed(name.as_bytes())?;
        }
        Ok(())
    }

    /// Each response header that pages may read, up to the first text that names none.
    pub fn expose_headers(self, names: &[&str]) -> Result<Cors<G>, AllocError>
        ensures { IfOk result (λ cors. cors ≡ and_all_exposed self (map (λ text. text.now) names.now)) }
    {
        let mut cors = self;
        let added = cors.add_all_exposed(names);
        cors.after(added)
    }
}
