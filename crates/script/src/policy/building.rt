//! Builds the policy of a script.
ghost use Rattle.std.specs.Prelude.{◌≡◌, IfOk};
ghost use Rattle.cors_rules.specs.Policy.{fresh};
ghost use Rattle.script.specs.PolicyText.{and_lines};

use crate::policy::{PolicyLine, ScriptRule};
use cors_answer::Cors;
use std::alloc::{AllocError, Global};

/// The builder after the calls that the lines ask for, in order. It keeps the first error of a call.
pub fn build_policy(alloc: Global, lines: &[PolicyLine]) -> Result<Cors<ScriptRule>, AllocError>
    ensures { IfOk result (λ cors. cors ≡ and_lines fresh lines.now) }
{
    let mut cors = Cors::default(alloc);
    for line in lines {
        cors = line.added_to(alloc, cors)?;
    }
    Ok(cors)
}
