//! The calls of the builder that set a flag, a number, or everything.
ghost use Rattle.std.specs.Prelude.{◌≡◌, true, false, IfOk, OnOk};
ghost use Rattle.cors_rules.specs.Building.{set_policy, nine_methods};

use crate::cors::Cors;
use cors_policy::OriginRule;
use cors_rules::AllOrSome;
use cors_sets::{TextSet, nine_methods};
use std::alloc::AllocError;
use std::mem::replace;

// Everything is allowed.
fn allow_all(set: &mut AllOrSome<TextSet>)
    ensures { set.new ≡ AllOrSome.All }
{
    drop(replace(set, AllOrSome::All));
}

impl<G: OriginRule> Cors<G> {
    /// All origins are allowed.
    pub fn allow_any_origin(mut self) -> Cors<G>
        ensures { result ≡ set_policy self (record self.policy { origins = AllOrSome.All }) }
    {
        if self.error.is_some() {
            return self;
        }
        allow_all(&mut self.policy.origins);
        self
    }

    /// All request headers are allowed.
    pub fn allow_any_header(mut self) -> Cors<G>
        ensures { result ≡ set_policy self (record self.policy { headers = AllOrSome.All }) }
    {
        if self.error.is_some() {
            return self;
        }
        allow_all(&mut self.policy.headers);
        self
    }

    /// Pages may read all response headers.
    pub fn expose_any_header(mut self) -> Cors<G>
        ensures { result ≡ set_policy self (record self.policy { exposed = AllOrSome.All }) }
    {
        if self.error.is_some() {
            return self;
        }
        allow_all(&mut self.policy.exposed);
        self
    }

    /// How many seconds a preflight answer may be kept (`Access-Control-Max-Age`).
    pub fn max_age(mut self, seconds: Option<u64>) -> Cors<G>
        ensures { result ≡ set_policy self (record self.policy { max_age = seconds }) }
    {
        if self.error.is_some() {
            return self;
        }
        self.policy.max_age = seconds;
        self
    }

    /// Whether a request is refused where its origin is not granted.
    pub fn block_on_origin_mismatch(mut self, block: bool) -> Cors<G>
        ensures { result ≡ set_policy self (record self.policy { block = block }) }
    {
        if self.error.is_some() {
            return self;
        }
        self.policy.block = block;
        self
    }

    /// A grant to all is written as `*`.
    pub fn send_wildcard(mut self) -> Cors<G>
        ensures { result ≡ set_policy self (record self.policy { wildcard = true }) }
    {
        if self.error.is_some() {
            return self;
        }
        self.policy.wildcard = true;
        self
    }

    /// Pages may send credentials.
    pub fn supports_credentials(mut self) -> Cors<G>
        ensures { result ≡ set_policy self (record self.policy { credentials = true }) }
    {
        if self.error.is_some() {
            return self;
        }
        self.policy.credentials = true;
        self
    }

    /// Answers do not name what they depend on.
    pub fn disable_vary_header(mut self) -> Cors<G>
        ensures { result ≡ set_policy self (record self.policy { vary = false }) }
    {
        if self.error.is_some() {
            return self;
        }
        self.policy.vary = false;
        self
    }

    /// Preflights go to the inner service.
    pub fn disable_preflight(mut self) -> Cors<G>
        ensures { result ≡ set_policy self (record self.policy { preflight = false }) }
    {
        if self.error.is_some() {
            return self;
        }
        self.policy.preflight = false;
        self
    }

    // The nine methods.
    fn add_any_method(&mut self) -> Result<(), AllocError>
        ensures { OnOk result (self.new ≡ set_policy self.old (record self.old.policy { methods = nine_methods })) }
    {
        if self.error.is_some() {
            return Ok(());
        }
        let methods = nine_methods(self.alloc)?;
        drop(replace(&mut self.policy.methods, methods));
        Ok(())
    }

    /// All methods of HTTP (RFC 9110, section 9, and RFC 5789) are allowed.
    pub fn allow_any_method(self) -> Result<Cors<G>, AllocError>
        ensures { IfOk result (λ cors. cors ≡ set_policy self (record self.policy { methods = nine_methods })) }
    {
        let mut cors = self;
        let added = cors.add_any_method();
        cors.after(added)
    }
}
