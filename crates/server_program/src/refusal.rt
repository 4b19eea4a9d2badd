//! Why the program writes no report and no summary.
ghost use Rattle.std.specs.Prelude.{◌≡◌, IfOk};
ghost use Rattle.server_program.specs.Refusals.{Tells};
ghost use Rattle.server_program.specs.Statuses.{bad_line_text, refused_text};
ghost use Rattle.server_program.specs.Text.{text_of};

use crate::ending::Ending;
use cors_policy::ConfigError;
use service_core::Octets;
use std::alloc::{AllocError, Global};

/// How the program is called.
const USAGE: &[u8] = b"usage: replay | listen ADDR N | generate N K\n";

const READ_FAILED: &[u8] = b"read failed\n";

const TOO_LONG: &[u8] = b"script is longer than 16777216 bytes\n";

const NO_LISTENER: &[u8] = b"startup refused: no listener\n";

const NO_WORKER: &[u8] = b"no worker could be started\n";

const CANNOT_LISTEN: &[u8] = b"cannot listen\n";

/// Why the program writes no report and no summary.
#[derive(Drop)]
pub(crate) enum Refusal {
    /// The words are no form.
    Usage,
    /// A read failed.
    ReadFailed,
    /// The script is longer than a script may be.
    TooLong,
    /// The line of this number is the first that is not understood.
    BadLine(usize),
    /// The script names no listener.
    NoListener,
    /// The policy is refused.
    Policy(ConfigError),
    /// A worker could not be started.
    NoWorker,
    /// The binder refused the address.
    CannotListen,
    /// Memory ran out.
    Memory,
}

impl Refusal {
    /// How the program ends. Where memory for the text runs out, that is told.
    pub(crate) fn ending(&self, alloc: Global) -> Ending
        ensures { Tells self.now result.status (text_of result.text) }
    {
        match self {
            Refusal::Usage => Ending::fixed(2, USAGE),
            Refusal::ReadFailed => Ending::fixed(5, READ_FAILED),
            Refusal::TooLong => Ending::fixed(3, TOO_LONG),
            Refusal::BadLine(number) => Ending::or_memory(3, bad_line(alloc, *number)),
            Refusal::NoListener => Ending::fixed(4, NO_LISTENER),
            Refusal::Policy(error) => Ending::or_memory(4, refused(alloc, *error)),
            Refusal::NoWorker => Ending::fixed(8, NO_WORKER),
            Refusal::CannotListen => Ending::fixed(9, CANNOT_LISTEN),
            Refusal::Memory => Ending::memory(),
        }
    }
}

fn bad_line(alloc: Global, number: usize) -> Result<Octets, AllocError>
    ensures { IfOk result (λ text. text ≡ bad_line_text number) }
{
    let text = format!(in alloc; "script line {number} is not understood\n")?;
    Ok(Octets::from_vec(text.into_bytes()))
}

fn refused(alloc: Global, error: ConfigError) -> Result<Octets, AllocError>
    ensures { IfOk result (λ text. text ≡ refused_text error) }
{
    let text = format!(in alloc; "startup refused: {error}\n")?;
    Ok(Octets::from_vec(text.into_bytes()))
}
