//! Rules of a script's policy.
ghost use Rattle.script.specs.Rules.{script_rules};

use cors_policy::OriginRule;
use http_header::DNT;
use http1_plain::RequestHead;

/// A rule that may allow origins beside those that a script names.
#[derive(Clone, Copy, Debug, PartialEq, Eq)]
pub enum ScriptRule {
    /// Allows every origin.
    Always,
    /// Allows the origin of a request that has a `DNT` header.
    Dnt,
    /// Allows the origins that end with `.rust-lang.org`.
    RustLang,
}

impl OriginRule for ScriptRule {
    ghost allowed = { script_rules };

    fn allows(&self, origin: &[u8], head: &RequestHead) -> bool {
        match self {
            ScriptRule::Always => true,
            ScriptRule::Dnt => head.headers.get(&DNT).is_some(),
            ScriptRule::RustLang => origin.ends_with(b".rust-lang.org"),
        }
    }
}
