use crate::answer::link_at;
use crate::deed::Deed;
use crate::log::Log;
use rtrb::{Consumer, Producer};
use server_jobs::{Note, Parcel};
use server_run::{Entry, MemoryLink, Outcome};
use std::alloc::Global;

/// The workers, which a test plays: their ends of the rings.
#[derive(Drop)]
pub(crate) struct Staff {
    pub(crate) alloc: Global,
    pub(crate) parcels: Vec<Consumer<Parcel<MemoryLink>>>,
    pub(crate) notes: Vec<Producer<Note<MemoryLink>>>,
}

/// How a worker ends a connection. Where the serial is odd its link could not be read.
pub(crate) fn outcome_of(serial: u64) -> Outcome {
    if serial % 2 == 0 {
        Outcome::Served
    } else {
        Outcome::ReadFault
    }
}

// The note that a connection has ended.
fn note_of(parcel: Parcel<MemoryLink>, halted: bool) -> Option<Note<MemoryLink>> {
    match parcel {
        Parcel::Conn {
            serial,
            token,
            place,
            link,
        } => Some(Note::Back(Entry {
            serial,
            token,
            place,
            link,
            outcome: if halted {
                Outcome::Stopped { forced: true }
            } else {
                outcome_of(serial)
            },
        })),
        Parcel::Stop { graceful: _ } => None,
    }
}

impl Staff {
    // What a worker takes next.
    fn taken(&mut self, w: usize) -> Option<Parcel<MemoryLink>> {
        self.parcels.get_mut(w)?.pop().ok()
    }

    // Sends a note. False where there is no place for it.
    fn tell(&mut self, w: usize, note: Note<MemoryLink>) -> bool {
        match self.notes.get_mut(w) {
            Some(notes) => notes.push(note).is_ok(),
            None => false,
        }
    }

    // The note that a connection has ended that the worker takes, or was stopped.
    fn ended(&mut self, w: usize, halted: bool) -> Option<Note<MemoryLink>> {
        note_of(self.taken(w)?, halted)
    }

    // The note that a connection has ended that no worker took.
    fn stray(&self) -> Note<MemoryLink> {
        Note::Back(Entry {
            serial: 0,
            token: 0,
            place: 0,
            link: link_at(self.alloc, 0, 0),
            outcome: Outcome::Served,
        })
    }

    // The note of what a worker does, if there is one.
    fn note(&mut self, w: usize, deed: Deed) -> Option<Note<MemoryLink>> {
        match deed {
            Deed::Ready => Some(Note::Ready),
            Deed::Fault => Some(Note::Faulted),
            Deed::Stray => Some(self.stray()),
            Deed::Back => self.ended(w, false),
            Deed::Halt => self.ended(w, true),
            Deed::Take | Deed::Notes => None,
        }
    }

    // Sends the note of what a worker does. False where there is none, or no place for it.
    fn send(&mut self, w: usize, deed: Deed) -> bool {
        match self.note(w, deed) {
            Some(note) => self.tell(w, note),
            None => false,
        }
    }

    // How many notes of a worker were not taken yet.
    fn notes_left(&mut self, w: usize) -> usize {
        match self.notes.get_mut(w) {
            Some(notes) => {
                let free = notes.slots();
                notes.capacity().saturating_sub(free)
            }
            None => 0,
        }
    }

    // Writes down what a worker takes.
    fn show_taken(&mut self, w: usize, log: &mut Log) {
        log.before("worker ", w as u64);
        log.word(" takes ");
        match self.taken(w) {
            Some(parcel) => log.parcel(&parcel),
            None => log.word("nothing"),
        }
        log.word("\n");
    }

    // Writes down how many notes of a worker were not taken yet.
    fn show_notes(&mut self, w: usize, log: &mut Log) {
        log.before("notes of worker ", w as u64);
        log.before(": ", self.notes_left(w) as u64);
        log.word("\n");
    }

    /// What a worker does. A note that was not sent is written down.
    pub(crate) fn act(&mut self, w: usize, deed: Deed, log: &mut Log) {
        match deed {
            Deed::Take => self.show_taken(w, log),
            Deed::Notes => self.show_notes(w, log),
            Deed::Ready | Deed::Fault | Deed::Stray | Deed::Back | Deed::Halt => {
                if !self.send(w, deed) {
                    log.word("refused\n");
                }
            }
        }
    }

    // A worker hands back all that it has, up to a thousand.
    fn hand_back(&mut self, w: usize) {
        for _ in 0..1_000_u32 {
            if !self.send(w, Deed::Back) {
                return;
            }
        }
    }

    /// Each worker hands back all that it has.
    pub(crate) fn hand_all_back(&mut self) {
        for w in 0..self.parcels.len() {
            self.hand_back(w);
        }
    }
}
