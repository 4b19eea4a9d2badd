ghost use Rattle.std.specs.Prelude.{◌≡◌};

use service_core::Octets;
use std::marker::Model;

/// A name in lower case, and a value.
pub(crate) type Header = (Octets, Octets);

/// A request's head. Contracts see that of the definitions.
#[derive(Drop)]
pub(crate) struct Head {
    /// What is asked to be done.
    pub(crate) method: Octets,
    /// On what, as it was sent.
    pub(crate) target: Octets,
    /// 0 or 1, of HTTP/1.0 or HTTP/1.1.
    pub(crate) minor: u8,
    /// Its headers in order, with their names in lower case.
    pub(crate) headers: Vec<Header>,
}

impl Model for Head {
    ghost use Rattle.http1_grammar.specs.Head.{Head as Parts};

    ghost Value = { Parts };

    ghost view = { λ h. record { method = h.method; target = h.target; minor = h.minor; headers = h.headers.items } };
}

impl Head {
    pub(crate) fn method(&self) -> &[u8]
        ensures { result.now ≡ self.now.method }
    {
        self.method.as_bytes()
    }

    pub(crate) fn target(&self) -> &[u8]
        ensures { result.now ≡ self.now.target }
    {
        self.target.as_bytes()
    }

    pub(crate) fn minor(&self) -> u8
        ensures { result ≡ self.now.minor }
    {
        self.minor
    }

    pub(crate) fn headers(&self) -> &[Header]
        ensures { result.now ≡ self.now.headers }
    {
        &self.headers
    }
}
