use crate::headers::Header;
use service_core::Octets;
use std::marker::Model;

/// A response. Contracts see that of the definitions.
#[derive(Drop)]
pub struct Response {
    /// Its status.
    pub status: u16,
    /// Its headers in order.
    pub headers: Vec<Header>,
    /// The bytes of its body.
    pub body: Octets,
}

impl Model for Response {
    ghost use Rattle.http1_grammar.specs.Wire.{Response as Parts};

    ghost Value = { Parts };

    ghost view = { λ r. record { status = r.status; headers = r.headers.items; body = r.body } };
}
