//! The steps of a connection, from bytes that come in pieces.
ghost use Rattle.std.specs.Prelude.{◌≡◌, [], IfOk, OnOk, OnErr};
ghost use Rattle.http1_grammar.specs.Reading.{at_head, behind, decision, fed};
ghost use Rattle.http1_reader.specs.Readers.{decision_of, Tells, HoldsLittle};

use crate::Step;
use crate::reader_state::ReaderState;
use http1_plain::Limits;
use service_core::Octets;
use std::alloc::{AllocError, Global};
use std::marker::Model;

/// Cuts heads and bodies from the bytes of a connection, which come in pieces (RFC 9112, sections 2, 3, 6 and 7.1).
///
/// A contract sees its limits, the bytes that no step has used, and where it stands: at a head, in a body of some length,
/// in the chunks of a body behind some data, or behind a refusal. What it answers is what these bytes decide, however they
/// came. A search for the end of a head goes on where it stopped, and chunks are decoded on behind those of earlier steps.
#[derive(Drop)]
pub struct Reader {
    state: ReaderState,
}

impl Model for Reader {
    ghost use Rattle.http1_grammar.specs.Reading.{Reading};
    ghost use Rattle.http1_reader.specs.Readers.{reading_of, IsSound};

    ghost Value = { Reading };

    ghost view = { λ r. reading_of r.state };

    ghost invariant = { λ r. IsSound r.state };
}

impl Reader {
    /// No bytes, which takes no memory.
    pub fn new(alloc: Global, limits: Limits) -> Reader
        ensures limits { result.limits ≡ limits }
        ensures unread { result.unread ≡ [] }
        ensures stage { result.stage ≡ at_head }
    {
        Reader {
            state: ReaderState::new(alloc, limits),
        }
    }

    /// The piece goes behind the unread bytes, or nothing changes.
    pub fn feed(&mut self, piece: &[u8]) -> Result<(), AllocError>
        ensures ok { OnOk result (self.new ≡ fed self.old piece.now) }
        ensures err { OnErr result (self.new ≡ self.old) }
    {
        self.state.feed(piece)
    }

    /// The next step, which the unread bytes decide, or an error where memory ran out, and then nothing changes.
    ///
    /// `NeedMore` comes where they decide nothing, taken as not ended: the empty lines before a head then go, and the chunks
    /// that are whole go to the data of their body, so that a reader that waits holds no more bytes than the limits of heads
    /// and bodies and 257 more. A refusal is answered for ever after.
    pub fn next(&mut self) -> Result<Step, AllocError>
        ensures step { IfOk result (λ step. decision_of step self.new.unread ≡ decision self.old) }
        ensures reader { OnOk result (self.new ≡ behind self.old (decision self.old)) }
        ensures status { IfOk result Tells }
        ensures bound { IfOk result (HoldsLittle self.new) }
        ensures err { OnErr result (self.new ≡ self.old) }
    {
        self.state.next()
    }

    /// The limits of its heads and bodies.
    pub fn limits(&self) -> Limits
        ensures { result ≡ self.now.limits }
    {
        self.state.limits()
    }

    /// The bytes that no step has used.
    pub fn unread(&self) -> &[u8]
        ensures { result.now ≡ self.now.unread }
    {
        self.state.unread()
    }

    /// The same, which takes no memory.
    pub fn into_unread(self) -> Octets
        ensures { result ≡ self.unread }
    {
        let Reader { state } = self;
        state.into_unread()
    }
}
