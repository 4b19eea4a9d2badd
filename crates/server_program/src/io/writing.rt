//! Writes a text whole.
ghost use Rattle.std.specs.Prelude.{ℕ, take, OnOk, OnErr};
ghost use Rattle.service_core.specs.Counts.{Rose};
ghost use Rattle.server_program.specs.Stream.{Gains};

use crate::io::{Sink, SinkFault};

/// Writes a text to the sink. At an error the sink got the start of the text.
pub fn write_all<Si: Sink>(sink: &mut Si, text: &[u8]) -> Result<(), SinkFault>
    ensures whole { OnOk result (Gains (Si.got sink.old) text.now (Si.got sink.new)) }
    ensures cut_short { OnErr result (Rose (Si.faults sink.old) (Si.faults sink.new) × ((n : ℕ) × Gains (Si.got sink.old) (take n text.now) (Si.got sink.new))) }
{
    let mut rest = text;
    while !rest.is_empty() {
        let n = sink.write(rest)?;
        rest = &rest[n..];
    }
    Ok(())
}
