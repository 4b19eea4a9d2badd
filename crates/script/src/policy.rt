//! The lines of a policy.

mod building;
mod policy_line;
mod policy_text;
mod script_rule;

pub use building::build_policy;
pub use policy_line::PolicyLine;
pub use policy_text::read_policy_line;
pub use script_rule::ScriptRule;
