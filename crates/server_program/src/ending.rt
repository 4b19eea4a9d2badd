//! How the program ends: a status, and a text.
ghost use Rattle.std.specs.Prelude.{◌≡◌, ◌≢◌, IfErr, IfOk};
ghost use Rattle.service_core.specs.Counts.{Rose};
ghost use Rattle.server_program.specs.Refusals.{IsMemory};
ghost use Rattle.server_program.specs.Statuses.{Written};
ghost use Rattle.server_program.specs.Text.{text_of};

use crate::io::{Sink, SinkFault, write_all};
use crate::text::Text;
use service_core::Octets;
use std::alloc::AllocError;

const OUT_OF_MEMORY: &[u8] = b"out of memory\n";

/// A status, and the text that goes with it.
#[derive(Drop)]
pub(crate) struct Ending {
    status: u8,
    text: Text,
}

impl Ending {
    /// One whose text needs no memory.
    pub(crate) fn fixed(status: u8, text: &'static [u8]) -> Ending
        ensures status { result.status ≡ status }
        ensures text { text_of result.text ≡ text.entry.now }
    {
        Ending {
            status,
            text: Text::Fixed(text),
        }
    }

    /// One whose text was made.
    pub(crate) fn made(status: u8, text: Octets) -> Ending
        ensures status { result.status ≡ status }
        ensures text { text_of result.text ≡ text }
    {
        Ending {
            status,
            text: Text::Made(text),
        }
    }

    /// Memory ran out.
    pub(crate) fn memory() -> Ending
        ensures { IsMemory result.status (text_of result.text) }
    {
        Ending::fixed(7, OUT_OF_MEMORY)
    }

    /// One of this status whose text was to be made.
    pub(crate) fn or_memory(status: u8, text: Result<Octets, AllocError>) -> Ending
        ensures made { IfOk text (λ text. (result.status ≡ status) × (text_of result.text ≡ text)) }
        ensures memory { IfErr text (λ _. IsMemory result.status (text_of result.text)) }
    {
        match text {
            Ok(text) => Ending::made(status, text),
            Err(AllocError) => Ending::memory(),
        }
    }

    /// Writes the text. Returns the status, or 6 where a write fails.
    pub(crate) fn write_to<Si: Sink>(&self, sink: &mut Si) -> u8
        requires { self.now.status ≢ 6 }
        ensures { Written (Si.got sink.old) (Si.got sink.new) (Rose (Si.faults sink.old) (Si.faults sink.new)) self.now.status (text_of self.now.text) result }
    {
        match write_all(sink, self.text.as_bytes()) {
            Ok(()) => self.status,
            Err(SinkFault) => 6,
        }
    }
}
