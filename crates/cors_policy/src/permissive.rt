//! The policy that allows everything.
ghost use Rattle.std.specs.Prelude.{◌≡◌, IfOk};
ghost use Rattle.cors_rules.specs.Building.{permissive};

use crate::policy::Policy;
use crate::rule::OriginRule;
use cors_rules::AllOrSome;
use cors_sets::nine_methods;
use std::alloc::{AllocError, Global};

impl<G: OriginRule> Policy<G> {
    /// Everything is allowed, with credentials, and preflight answers may be kept for an hour.
    pub fn permissive(alloc: Global) -> Result<Policy<G>, AllocError>
        ensures { IfOk result (λ policy. policy ≡ permissive.policy) }
    {
        let methods = nine_methods(alloc)?;
        Ok(Policy {
            origins: AllOrSome::All,
            rules: Vec::new(alloc),
            methods,
            headers: AllOrSome::All,
            exposed: AllOrSome::All,
            max_age: Some(3600),
            preflight: true,
            wildcard: false,
            credentials: true,
            vary: true,
            block: false,
        })
    }
}
