ghost use Rattle.std.specs.Prelude.{◌≡◌, ◌≤◌, ◌++◌, [], length, drop, OnOk, OnErr};
ghost use Rattle.http1_grammar.specs.Wire.{wire_of, refusal, continue_line};
ghost use Rattle.http1_plain.specs.Views.{minor_version};

use http::method::Method;
use http1_plain::{HttpVersion, Response, write_continue, write_refusal, write_response};
use service_core::Octets;
use std::alloc::{AllocError, Global};
use std::marker::Model;

/// The bytes that wait to be written. A contract sees those alone.
#[derive(Drop)]
pub(crate) struct Outgoing {
    bytes: Octets,
    // So many of the bytes were written. They go once they are half of all, so no more bytes are moved than were written.
    written: usize,
}

impl Model for Outgoing {
    ghost use Rattle.std.specs.Prelude.{ℕ, List, ◌≤◌, length, drop};

    ghost Value = { List ℕ };

    ghost view = { λ o. drop o.written o.bytes };

    ghost invariant = { λ o. o.written ≤ length o.bytes };
}

impl Outgoing {
    /// Nothing waits.
    pub(crate) fn new(alloc: Global) -> Outgoing
        ensures { result ≡ [] }
    {
        Outgoing {
            bytes: Octets::new(alloc),
            written: 0,
        }
    }

    /// How many bytes wait.
    pub(crate) fn len(&self) -> usize
        ensures { result ≡ length self.now }
    {
        self.bytes.len() - self.written
    }

    /// The bytes that wait.
    pub(crate) fn as_bytes(&self) -> &[u8]
        ensures { result.now ≡ self.now }
    {
        &self.bytes.as_bytes()[self.written..]
    }

    /// The first `count` bytes were written.
    pub(crate) fn drop_front(&mut self, count: usize)
        requires { count ≤ length self.old }
        ensures { self.new ≡ drop count self.old }
    {
        let size = self.bytes.len();
        self.written += count;
        if self.written >= size - self.written {
            self.bytes.drop_front(self.written);
            self.written = 0;
        }
    }

    /// The response to a request of this method and version waits behind these, or nothing changes.
    pub(crate) fn push_response(
        &mut self,
        method: &Method,
        version: HttpVersion,
        response: &Response,
        closing: bool,
    ) -> Result<(), AllocError>
        ensures ok { OnOk result (self.new ≡ self.old ++ wire_of method.now (minor_version version) response.now closing) }
        ensures err { OnErr result (self.new ≡ self.old) }
    {
        write_response(&mut self.bytes, method, version, response, closing)
    }

    /// `100 Continue` waits behind these, or nothing changes.
    pub(crate) fn push_continue(&mut self) -> Result<(), AllocError>
        ensures ok { OnOk result (self.new ≡ self.old ++ continue_line) }
        ensures err { OnErr result (self.new ≡ self.old) }
    {
        write_continue(&mut self.bytes)
    }

    /// The response that refuses a request waits behind these, or nothing changes.
    pub(crate) fn push_refusal(&mut self, status: u16) -> Result<(), AllocError>
        requires low { 200 ≤ status }
        requires high { status ≤ 999 }
        ensures ok { OnOk result (self.new ≡ self.old ++ refusal status) }
        ensures err { OnErr result (self.new ≡ self.old) }
    {
        write_refusal(&mut self.bytes, status)
    }
}
