ghost use Rattle.std.specs.Prelude.{◌≡◌};
ghost use Rattle.cors_plain.specs.Rules.{allowed_by};

use crate::head::Head;

/// Allows origins beside the finite set.
#[derive(Clone, Copy, Debug, PartialEq, Eq)]
pub enum Rule {
    /// Those that end in `.example.org`.
    UnderExample,
    /// Each that sends a POST.
    OfPosts,
}

impl Rule {
    /// Whether it allows the origin of a request with the head.
    pub fn allows(&self, origin: &[u8], head: &Head) -> bool
        ensures { result ≡ allowed_by self.now origin.now head.now }
    {
        match self {
            Rule::UnderExample => origin.ends_with(b".example.org"),
            Rule::OfPosts => head.method() == b"POST".as_slice(),
        }
    }
}
