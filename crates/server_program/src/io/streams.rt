//! Standard input and output.
ghost use Rattle.std.specs.Prelude.{◌≡◌, None};

use crate::io::{Sink, SinkFault, Source, SourceFault};
use std::io;
use std::io::{Read, Write};

/// The standard input as a source, or the standard output as a sink. It tells no content, and
/// counts the faults.
#[derive(Drop)]
pub struct Streams<'a, R> {
    rt: &'a R,
    faults: u64,
}

impl<'a, R> Streams<'a, R> {
    /// No fault is counted yet.
    pub fn new(rt: &'a R) -> Streams<'a, R>
        ensures { result.faults ≡ 0 }
    {
        Streams { rt, faults: 0 }
    }
}

impl<R: Input> Source for Streams<'_, R> {
    ghost remaining = { λ _. None };

    ghost faults = { λ streams. streams.faults };

    fn read(&mut self, buf: &mut [u8]) -> Result<usize, SourceFault> {
        let mut reader = self.rt.reader();
        match reader.read(buf) {
            Ok(n) => Ok(n),
            Err(_) => {
                self.faults = self.faults.saturating_add(1);
                Err(SourceFault)
            }
        }
    }
}

impl<R: Print> Sink for Streams<'_, R> {
    ghost got = { λ _. None };

    ghost faults = { λ streams. streams.faults };

    fn write(&mut self, piece: &[u8]) -> Result<usize, SinkFault> {
        match io::writer(self.rt).write(piece) {
            Ok(n) if 0 < n => Ok(n),
            _ => {
                self.faults = self.faults.saturating_add(1);
                Err(SinkFault)
            }
        }
    }
}
