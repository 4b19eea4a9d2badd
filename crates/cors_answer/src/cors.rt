//! The builder of a policy, after `Cors` of the crate actix-cors.
ghost use Rattle.std.specs.Prelude.{◌≡◌, IfOk, OnOk, Ok};
ghost use Rattle.cors_rules.specs.Policy.{fresh};
ghost use Rattle.cors_rules.specs.Building.{keep, permissive};
ghost use Rattle.cors_rules.specs.Equality.{policy_eq, policy_per};
ghost use Rattle.cors_rules.specs.Refusing.{config_error};
ghost use Rattle.std.specs.Cmp.{on_per};

mod flags;
mod texts;

use cors_policy::{OriginRule, Policy};
use cors_rules::ConfigError;
use std::alloc::{AllocError, Global};
use std::marker::Model;

/// A builder of a policy, which keeps the first error. Once it keeps one, its calls change nothing.
#[derive(Drop)]
pub struct Cors<G> {
    pub(crate) alloc: Global,
    pub(crate) policy: Policy<G>,
    pub(crate) error: Option<ConfigError>,
}

impl<G> Model for Cors<G> {
    ghost use Rattle.cors_rules.specs.Policy as seen;

    ghost Value = { seen.Builder G };

    ghost view = { λ c. record { policy = c.policy; error = c.error } };
}

impl<G: OriginRule> Cors<G> {
    /// Nothing is allowed.
    pub fn default(alloc: Global) -> Cors<G>
        ensures { result ≡ fresh }
    {
        Cors {
            alloc,
            policy: Policy::strict(alloc),
            error: None,
        }
    }

    /// Everything is allowed, with credentials, and preflight answers may be kept for an hour.
    pub fn permissive(alloc: Global) -> Result<Cors<G>, AllocError>
        ensures { IfOk result (λ cors. cors ≡ permissive) }
    {
        Ok(Cors {
            alloc,
            policy: Policy::permissive(alloc)?,
            error: None,
        })
    }

    /// The policy so far.
    pub fn policy(&self) -> &Policy<G>
        ensures { result.now ≡ self.now.policy }
    {
        &self.policy
    }

    /// The error that it keeps.
    pub fn error(&self) -> Option<ConfigError>
        ensures { result ≡ self.now.error }
    {
        self.error
    }

    // The error is kept, unless there is one before it.
    pub(crate) fn keep_error(&mut self, error: ConfigError)
        ensures { self.new ≡ keep self.old error }
    {
        self.error = self.error.or(Some(error));
    }

    // The builder, unless memory ran out.
    pub(crate) fn after(self, added: Result<(), AllocError>) -> Result<Cors<G>, AllocError>
        ensures same { IfOk result (λ cors. cors ≡ self) }
        ensures added { OnOk result (added ≡ Ok tt) }
    {
        match added {
            Ok(()) => Ok(self),
            Err(error) => {
                drop(self);
                Err(error)
            }
        }
    }

    /// Why the policy is refused, if it is.
    pub fn config_error(&self) -> Option<ConfigError>
        ensures { result ≡ config_error self.now }
    {
        if self.error.is_some() {
            return self.error;
        }
        let policy = &self.policy;
        if policy.credentials && policy.wildcard && policy.origins.is_all() {
            Some(ConfigError::IllegalCombination)
        } else {
            None
        }
    }
}

/// The policies, and not the errors that are kept.
impl<G: OriginRule> PartialEq for Cors<G> {
    ghost eq = { λ a b. policy_eq G.eq a.policy b.policy };

    ghost laws = { on_per (λ c. c.policy) (policy_per G.eq G.laws) };

    fn eq(&self, other: &Cors<G>) -> bool {
        self.policy == other.policy
    }
}
