//! A copy of a policy, for requests.
ghost use Rattle.std.specs.Prelude.{◌≡◌, Ok, IfOk};

use crate::policy::Policy;
use crate::rule::OriginRule;
use cors_rules::AllOrSome;
use cors_sets::{TextSet, copy_to_ask, copy_to_ask_and_print, copy_to_print};
use std::alloc::{AllocError, Global};

// The first value with the second one, or an error where there is none.
fn with<A: Drop, B>(first: A, second: Result<B, AllocError>) -> Result<(A, B), AllocError>
    ensures { IfOk result (λ both. (both.0 ≡ first) × (second ≡ Ok both.1)) }
{
    match second {
        Ok(second) => Ok((first, second)),
        Err(error) => {
            drop(first);
            Err(error)
        }
    }
}

impl<G: OriginRule> Policy<G> {
    // The methods, which requests ask for and answers print.
    fn copy_methods(&self) -> Result<TextSet, AllocError>
        ensures { IfOk result (λ methods. methods ≡ self.now.methods) }
    {
        self.methods.copy_joined()?.in_row()
    }

    // The names of headers that a preflight may ask for, and those that a page may read.
    fn copy_names(&self) -> Result<(AllOrSome<TextSet>, AllOrSome<TextSet>), AllocError>
        ensures { IfOk result (λ names. (names.0 ≡ self.now.headers) × (names.1 ≡ self.now.exposed)) }
    {
        let headers = copy_to_ask_and_print(&self.headers)?;
        with(headers, copy_to_print(&self.exposed))
    }

    // The origins, and the rules that may grant others.
    fn copy_origins(&self, alloc: Global) -> Result<(AllOrSome<TextSet>, Vec<G>), AllocError>
        ensures { IfOk result (λ origins. (origins.0 ≡ self.now.origins) × (origins.1.items ≡ self.now.rules)) }
    {
        let origins = copy_to_ask(&self.origins)?;
        with(origins, Vec::from_slice(alloc, &self.rules))
    }

    /// An equal policy, whose texts that no request changes are joined once, and whose texts that requests ask for stand
    /// in rows.
    pub fn copy(&self, alloc: Global) -> Result<Policy<G>, AllocError>
        ensures { IfOk result (λ copy. copy ≡ self.now) }
    {
        let parts = self.copy_origins(alloc)?;
        let parts = with(parts, self.copy_methods())?;
        let (((origins, rules), methods), (headers, exposed)) = with(parts, self.copy_names())?;
        Ok(Policy {
            origins,
            rules,
            methods,
            headers,
            exposed,
            max_age: self.max_age,
            preflight: self.preflight,
            wildcard: self.wildcard,
            credentials: self.credentials,
            vary: self.vary,
            block: self.block,
        })
    }
}
