//! Reads a script whole.
ghost use Rattle.std.specs.Prelude.{◌≡◌, ◌≤◌, [], length, IfOk, IfSome, IsErrOf};
ghost use Rattle.service_core.specs.Counts.{Rose};
ghost use Rattle.server_program.specs.Stream.{Hands};
ghost use Rattle.server_program.specs.declared.io.reading.ReadError.TheVariants.{Memory};

use crate::io::Source;
use script::MAX_SCRIPT;
use service_core::Octets;
use std::alloc::{AllocError, Global};

/// Why a script was not read.
#[derive(Clone, Copy, Debug, PartialEq, Eq)]
pub enum ReadError {
    /// A read failed.
    Failed,
    /// Memory ran out.
    Memory,
}

impl From<AllocError> for ReadError {
    ghost from_gives = { λ _ e. e ≡ Memory };

    fn from(_: AllocError) -> Self {
        ReadError::Memory
    }
}

/// The bytes of the source, to its end or past the greatest length of a script.
pub fn read_whole<So: Source>(alloc: Global, source: &mut So) -> Result<Octets, ReadError>
    ensures bytes { IfOk result (λ bytes. Hands (So.remaining source.old) bytes (So.remaining source.new)) }
    ensures whole { IfOk result (λ bytes. length bytes ≤ 16777216 → IfSome (So.remaining source.new) (λ rest. rest ≡ [])) }
    ensures failed { IsErrOf result ReadError.Failed → Rose (So.faults source.old) (So.faults source.new) }
    ensures faults { So.faults source.old ≤ So.faults source.new }
{
    let mut bytes = Octets::new(alloc);
    let mut buf = [0; 4096];
    while bytes.len() <= MAX_SCRIPT {
        let Ok(n) = source.read(&mut buf) else {
            return Err(ReadError::Failed);
        };
        if n == 0 {
            return Ok(bytes);
        }
        bytes.push_all(&buf[..n])?;
    }
    Ok(bytes)
}
