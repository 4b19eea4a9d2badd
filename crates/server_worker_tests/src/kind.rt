ghost use Rattle.std.specs.Prelude.{◌≡◌, ◌<◌, ◌^◌, length, All, IfOk};
ghost use Rattle.server_run.specs.Steps.{given_by, TakesSome};

use server_run::{MemoryLink, Outcome, ReadStep, WriteStep};
use service_core::{Octets, Peer};
use std::alloc::{AllocError, Global};

/// How a link is read and written.
#[derive(Clone, Copy)]
pub(crate) enum Kind {
    /// Its bytes come together.
    Whole,
    /// Each of its bytes comes alone.
    Bytewise,
    /// Reads and writes wait.
    Waiting,
    /// A read fails behind two bytes.
    Unreadable,
    /// A write fails behind one byte.
    Unwritable,
    /// It is at its end at once.
    Empty,
    /// No read is answered.
    Silent,
}

/// Each kind that comes to an end.
pub(crate) const KINDS: [Kind; 6] = [
    Kind::Whole,
    Kind::Bytewise,
    Kind::Waiting,
    Kind::Unreadable,
    Kind::Unwritable,
    Kind::Empty,
];

// The digit of a number at a power of ten.
fn digit(number: u64, power: u64) -> u8
    requires { 0 < power }
{
    b'0' + (number / power % 10) as u8
}

// The bytes of the link of a connection: its number.
fn digits(serial: u64) -> [u8; 4] {
    [
        digit(serial, 1_000),
        digit(serial, 100),
        digit(serial, 10),
        digit(serial, 1),
    ]
}

// Gives four bytes one by one.
fn bytewise(alloc: Global, digits: [u8; 4]) -> Result<Vec<ReadStep>, AllocError>
    ensures { IfOk result (λ reads. length (given_by reads.items) < 2 ^ 64) }
{
    let [a, b, c, d] = digits;
    let steps = vec![in alloc;
        ReadStep::Give(Octets::of(alloc, &[a])?),
        ReadStep::Give(Octets::of(alloc, &[b])?),
        ReadStep::Give(Octets::of(alloc, &[c])?),
        ReadStep::Give(Octets::of(alloc, &[d])?),
    ]?;
    Ok(steps)
}

// Gives four bytes in two pieces, and waits before each.
fn waiting(alloc: Global, digits: [u8; 4]) -> Result<Vec<ReadStep>, AllocError>
    ensures { IfOk result (λ reads. length (given_by reads.items) < 2 ^ 64) }
{
    let steps = vec![in alloc;
        ReadStep::NotYet,
        ReadStep::Give(Octets::of(alloc, &digits[..1])?),
        ReadStep::NotYet,
        ReadStep::NotYet,
        ReadStep::Give(Octets::of(alloc, &digits[1..])?),
    ]?;
    Ok(steps)
}

// Gives two bytes, and fails.
fn failing(alloc: Global, digits: [u8; 4]) -> Result<Vec<ReadStep>, AllocError>
    ensures { IfOk result (λ reads. length (given_by reads.items) < 2 ^ 64) }
{
    let steps = vec![in alloc;
        ReadStep::Give(Octets::of(alloc, &digits[..2])?),
        ReadStep::Fail,
    ]?;
    Ok(steps)
}

// Gives four bytes at once.
fn whole(alloc: Global, digits: [u8; 4]) -> Result<Vec<ReadStep>, AllocError>
    ensures { IfOk result (λ reads. length (given_by reads.items) < 2 ^ 64) }
{
    let steps = vec![in alloc; ReadStep::Give(Octets::of(alloc, &digits)?)]?;
    Ok(steps)
}

// Gives nothing, and does not end.
fn silent(alloc: Global) -> Result<Vec<ReadStep>, AllocError>
    ensures { IfOk result (λ reads. length (given_by reads.items) < 2 ^ 64) }
{
    let steps = vec![in alloc; ReadStep::Never]?;
    Ok(steps)
}

impl Kind {
    // How its link is read.
    fn reads(self, alloc: Global, digits: [u8; 4]) -> Result<Vec<ReadStep>, AllocError>
        ensures { IfOk result (λ reads. length (given_by reads.items) < 2 ^ 64) }
    {
        match self {
            Kind::Whole | Kind::Unwritable => whole(alloc, digits),
            Kind::Bytewise => bytewise(alloc, digits),
            Kind::Waiting => waiting(alloc, digits),
            Kind::Unreadable => failing(alloc, digits),
            Kind::Empty => Ok(Vec::new(alloc)),
            Kind::Silent => silent(alloc),
        }
    }

    // How it is written to.
    fn writes(self, alloc: Global) -> Result<Vec<WriteStep>, AllocError>
        ensures { IfOk result (λ writes. All TakesSome writes.items) }
    {
        match self {
            Kind::Waiting => Ok(vec![in alloc;
                WriteStep::NotYet,
                WriteStep::Take(1),
                WriteStep::NotYet,
                WriteStep::Take(2),
            ]?),
            Kind::Unwritable => Ok(vec![in alloc; WriteStep::Take(1), WriteStep::Fail]?),
            Kind::Whole | Kind::Bytewise | Kind::Unreadable | Kind::Empty | Kind::Silent => Ok(
                Vec::new(alloc),
            ),
        }
    }

    /// The link of the connection with that number, by which it is named.
    pub(crate) fn link(self, alloc: Global, serial: u64) -> Result<MemoryLink, AllocError> {
        let reads = self.reads(alloc, digits(serial))?;
        let writes = self.writes(alloc)?;
        Ok(MemoryLink::new(alloc, serial, Peer::Local, reads, writes))
    }

    // How many bytes of it are written back.
    fn written(self) -> usize {
        match self {
            Kind::Whole | Kind::Bytewise | Kind::Waiting => 4,
            Kind::Unreadable => 2,
            Kind::Unwritable => 1,
            Kind::Empty | Kind::Silent => 0,
        }
    }

    /// What becomes of its connection.
    pub(crate) fn outcome(self) -> Outcome {
        match self {
            Kind::Unreadable => Outcome::ReadFault,
            Kind::Unwritable => Outcome::WriteFault,
            Kind::Whole | Kind::Bytewise | Kind::Waiting | Kind::Empty | Kind::Silent =>
                Outcome::Served,
        }
    }

    /// Whether this is the link of the connection with that number, served to its end.
    pub(crate) fn is_done(self, serial: u64, link: &MemoryLink) -> bool {
        let digits = digits(serial);
        link.name() == serial
            && digits.starts_with(link.written())
            && link.written().len() == self.written()
    }
}
