ghost use Rattle.std.specs.Prelude.{◌≤◌};

use crate::answer::name_of;
use crate::staff::outcome_of;
use server_acceptor::{AcceptTurn, Placed};
use server_core::{Command, Event};
use server_jobs::Parcel;
use server_run::{End, Entry, MemoryLink, Outcome};
use service_core::Octets;
use std::alloc::{AllocError, Global};

/// What happens, in words.
#[derive(Drop)]
pub(crate) struct Log {
    text: Octets,
    lacks_memory: bool,
}

impl Log {
    /// An empty one.
    pub(crate) fn new(alloc: Global) -> Log {
        Log {
            text: Octets::new(alloc),
            lacks_memory: false,
        }
    }

    /// There was no memory.
    pub(crate) fn lack_memory(&mut self) {
        self.lacks_memory = true;
    }

    fn bytes(&mut self, bytes: &[u8]) {
        if self.text.push_all(bytes).is_err() {
            self.lacks_memory = true;
        }
    }

    /// A word.
    pub(crate) fn word(&mut self, word: &str) {
        self.bytes(word.as_bytes());
    }

    // A number of four digits at most.
    fn number(&mut self, number: u64) {
        let digits = [
            digit(number / 1_000),
            digit(number / 100),
            digit(number / 10),
            digit(number),
        ];
        self.bytes(&digits[leading_zeros(number)..]);
    }

    /// A word before a number.
    pub(crate) fn before(&mut self, word: &str, number: u64) {
        self.word(word);
        self.number(number);
    }

    // An event.
    fn event(&mut self, event: Event) {
        match event {
            Event::Command(command) => self.word(told(command)),
            event => {
                let (word, number) = words(event);
                self.before(word, number as u64);
            }
        }
    }

    /// The events from that one on.
    pub(crate) fn events(&mut self, events: &[Event], from: usize) {
        for event in events.iter().skip(from) {
            self.event(*event);
        }
    }

    /// What a turn comes to, but that it goes on.
    pub(crate) fn turned(&mut self, turned: AcceptTurn) {
        match turned {
            AcceptTurn::Going => {}
            AcceptTurn::WorkerEnded(w) => self.before(", lost ", w as u64),
            AcceptTurn::Finished(End::Drained) => self.word(", drained"),
            AcceptTurn::Finished(End::Stopped { graceful: true }) => self.word(", stopped"),
            AcceptTurn::Finished(End::Stopped { graceful: false }) => self.word(
                ", stopped at once",
            ),
            AcceptTurn::Finished(End::NoWorkers) => self.word(", no workers"),
            AcceptTurn::Finished(End::Memory) => self.word(", memory"),
        }
    }

    /// A turn, by its events and by what it comes to.
    pub(crate) fn turn(&mut self, events: &[Event], turned: AcceptTurn) {
        self.word("turn");
        self.events(events, 0);
        self.turned(turned);
        self.word("\n");
    }

    /// What the placing by hand comes to.
    pub(crate) fn placed(&mut self, placed: Placed) {
        match placed {
            Placed::Sent(w) => self.before(", placed ", w as u64),
            Placed::Waiting => self.word(", waiting"),
            Placed::Nothing => self.word(", nothing"),
        }
    }

    /// The answer to a call.
    pub(crate) fn answer(&mut self, answer: bool) {
        self.word(if answer { ": yes\n" } else { ": no\n" });
    }

    // The numbers of a connection, and whether this is its link.
    fn connection(&mut self, serial: u64, token: usize, place: u64, link: &MemoryLink) {
        self.number(serial);
        self.before(" from ", token as u64);
        self.before(" at ", place);
        if link.name() != name_of(token, place) {
            self.word(" with a wrong link");
        }
    }

    /// What a worker takes.
    pub(crate) fn parcel(&mut self, parcel: &Parcel<MemoryLink>) {
        match parcel {
            Parcel::Conn {
                serial,
                token,
                place,
                link,
            } => self.connection(*serial, *token, *place, link),
            Parcel::Stop { graceful: true } => self.word("a stop"),
            Parcel::Stop { graceful: false } => self.word("a stop at once"),
        }
    }

    // How a connection ended, but that its worker ended it.
    fn outcome(&mut self, serial: u64, outcome: Outcome) {
        match outcome {
            Outcome::Lost { worker: Some(w) } => self.before(" lost by ", w as u64),
            Outcome::Lost { worker: None } => self.word(" lost"),
            Outcome::Stopped { forced: _ } => self.word(let_go(outcome)),
            outcome => {
                if outcome != outcome_of(serial) {
                    self.word(" with a wrong outcome");
                }
            }
        }
    }

    // What came back.
    fn entry(&mut self, entry: &Entry<MemoryLink>) {
        self.word("done: ");
        self.connection(entry.serial, entry.token, entry.place, &entry.link);
        self.outcome(entry.serial, entry.outcome);
        self.word("\n");
    }

    /// All that came back.
    pub(crate) fn entries(&mut self, entries: &[Entry<MemoryLink>]) {
        for entry in entries {
            self.entry(entry);
        }
    }

    /// Whether this happened.
    pub(crate) fn is(&self, wanted: &[u8]) -> Result<bool, AllocError> {
        if self.lacks_memory {
            return Err(AllocError);
        }
        Ok(self.text.as_bytes() == wanted)
    }
}

// A command in words.
fn told(command: Command) -> &'static str {
    match command {
        Command::Pause => ", pause",
        Command::Resume => ", resume",
        Command::Stop { graceful: true } => ", stop",
        Command::Stop { graceful: false } => ", stop at once",
    }
}

// How a connection was stopped, in words.
fn let_go(outcome: Outcome) -> &'static str {
    match outcome {
        Outcome::Stopped { forced: false } => " let go",
        _ => " stopped",
    }
}

// An event in words, and its number.
fn words(event: Event) -> (&'static str, usize) {
    match event {
        Event::Got(t) => (", got ", t),
        Event::Sent {
            worker,
            remains: true,
        } => (", sent ", worker),
        Event::Sent {
            worker,
            remains: false,
        } => (", filled ", worker),
        Event::RingFull(w) => (", full ", w),
        Event::Notice(w) => (", notice ", w),
        Event::Back(w) => (", back ", w),
        Event::ListenerFailed(t) => (", failed ", t),
        Event::ListenerEnded(t) => (", ended ", t),
        Event::Command(_) | Event::Faulted(_) | Event::Replaced(_) | Event::Retired(_) => (
            ", wrong ", 0,
        ),
    }
}

// The last digit of a number.
fn digit(number: u64) -> u8 {
    b'0' + (number % 10) as u8
}

// How many of four digits stand before the first that counts.
fn leading_zeros(number: u64) -> usize
    ensures { result ≤ 3 }
{
    if number >= 1_000 {
        0
    } else if number >= 100 {
        1
    } else if number >= 10 {
        2
    } else {
        3
    }
}
