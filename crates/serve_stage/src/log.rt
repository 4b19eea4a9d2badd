ghost use Rattle.std.specs.Prelude.{◌≤◌};

use server_run::Outcome;
use service_core::Octets;
use std::alloc::{AllocError, Global};

/// What became of a run, in words.
#[derive(Drop)]
pub struct Log {
    text: Octets,
    lacks_memory: bool,
}

impl Log {
    /// An empty one.
    pub fn new(alloc: Global) -> Log {
        Log {
            text: Octets::new(alloc),
            lacks_memory: false,
        }
    }

    /// There was no memory.
    pub fn lack_memory(&mut self) {
        self.lacks_memory = true;
    }

    fn bytes(&mut self, bytes: &[u8]) {
        if self.text.push_all(bytes).is_err() {
            self.lacks_memory = true;
        }
    }

    /// A word.
    pub fn word(&mut self, word: &str) {
        self.bytes(word.as_bytes());
    }

    // A number of three digits at most.
    fn number(&mut self, number: u64) {
        let digits = [digit(number / 100), digit(number / 10), digit(number)];
        self.bytes(&digits[leading_zeros(number)..]);
    }

    /// A word before a number.
    pub fn before(&mut self, word: &str, number: u64) {
        self.word(word);
        self.number(number);
    }

    /// What became of a connection.
    pub fn outcome(&mut self, outcome: Outcome) {
        match outcome {
            Outcome::Served => self.word(" served"),
            Outcome::ReadFault => self.word(" unread"),
            Outcome::WriteFault => self.word(" unwritten"),
            Outcome::Upgraded => self.word(" upgraded"),
            Outcome::Lost {
                worker: Some(worker),
            } => self.before(" lost ", worker as u64),
            Outcome::Lost { worker: None } => self.word(" lost"),
            Outcome::Stopped { forced: false } => self.word(" stopped"),
            Outcome::Stopped { forced: true } => self.word(" stopped forced"),
            Outcome::Memory => self.lack_memory(),
        }
    }

    /// Whether this became of it.
    pub fn is(&self, wanted: &[u8]) -> Result<bool, AllocError> {
        if self.lacks_memory {
            return Err(AllocError);
        }
        Ok(self.text.as_bytes() == wanted)
    }
}

// The last digit of a number.
fn digit(number: u64) -> u8 {
    b'0' + (number % 10) as u8
}

// How many of three digits stand before the first that counts.
fn leading_zeros(number: u64) -> usize
    ensures { result ≤ 2 }
{
    if number >= 100 {
        0
    } else if number >= 10 {
        1
    } else {
        2
    }
}
