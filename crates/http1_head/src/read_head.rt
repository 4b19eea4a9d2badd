//! A head that knows what it asks of its connection.
ghost use Rattle.std.specs.Prelude.{◌≡◌};
ghost use Rattle.http1_grammar.specs.Tokens.{closes, expects, upgrades};
ghost use Rattle.http1_plain.specs.Views.{view};
ghost use Rattle.http1_head.specs.Asking.{IsAskedBy};

use crate::asks::Asks;
use crate::fields::Fields;
use http1_plain::RequestHead;
use std::marker::Model;

/// A request's head, with what it asks of its connection (RFC 9110, sections 7.6.1, 7.8 and 10.1.1), which was found in one
/// walk over its headers together with the framing of its body. A contract sees the head. actix-http keeps the same beside
/// the headers of `RequestHead`, as flags.
#[derive(Drop)]
pub struct ReadHead {
    head: RequestHead,
    asks: Asks,
}

impl Model for ReadHead {
    ghost use Rattle.http1_plain.specs.Views.{view as head_of};
    ghost use Rattle.http1_plain.specs.declared.request_head.RequestHead.{RequestHead};
    ghost use Rattle.http1_head.specs.Asking.{IsAskedBy};

    ghost Value = { RequestHead };

    ghost view = { λ h. h.head };

    ghost invariant = { λ h. IsAskedBy (head_of h.head) h.asks };
}

impl ReadHead {
    // The head that asks this.
    #[inline(always)]
    pub(crate) fn new(head: RequestHead, asks: Asks) -> ReadHead
        requires { IsAskedBy (view head) asks }
        ensures { result ≡ head }
    {
        ReadHead { head, asks }
    }

    /// The head, with what it asks.
    pub fn of(head: RequestHead) -> ReadHead
        ensures { result ≡ head }
    {
        let asks = Fields::of(&head.headers).asks(head.version);
        ReadHead { head, asks }
    }

    /// Whether the connection closes after the response to this head (RFC 9112, section 9.3). It always does where it may not
    /// be kept alive.
    #[inline(always)]
    pub fn closes(&self, keeps_alive: bool) -> bool
        ensures { result ≡ closes keeps_alive (view self.now) }
    {
        !keeps_alive || self.asks.closes
    }

    /// Whether the head asks for another protocol (RFC 9110, section 7.8).
    #[inline(always)]
    pub fn upgrades(&self) -> bool
        ensures { result ≡ upgrades (view self.now) }
    {
        self.asks.upgrades
    }

    /// Whether the head waits for `100 Continue` (RFC 9110, section 10.1.1).
    #[inline(always)]
    pub fn expects(&self) -> bool
        ensures { result ≡ expects (view self.now) }
    {
        self.asks.expects
    }

    /// The head itself.
    #[inline(always)]
    pub fn head(&self) -> &RequestHead
        ensures { result.now ≡ self.now }
    {
        &self.head
    }

    /// The head itself.
    #[inline(always)]
    pub fn into_head(self) -> RequestHead
        ensures { result ≡ self }
    {
        self.head
    }
}
