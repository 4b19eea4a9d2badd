use crate::ending::Ending;
use crate::plan::LISTENERS;
use crate::tag::Tag;
use server_jobs::{Note, Parcel};
use server_run::{Entry, Outcome};

/// How many connections go to a worker at most.
pub(crate) const MOST: usize = 100;

// A place is its connection's number and so much.
const PLACES: u64 = 70_000;

/// What was put on the ring to a worker, and where each connection of that was found since.
#[derive(Clone, Copy)]
pub(crate) struct Books {
    // So many connections are to go, and a stop once they came back.
    count: usize,
    // So many parcels went.
    sent: usize,
    found: [bool; MOST],
    // How many came back, and how many were found elsewhere.
    back: usize,
    stayed: usize,
    // All services stood.
    ready: bool,
    // The worker told of a fault.
    faulted: bool,
    // Something was not as it has to be.
    wrong: bool,
    /// A connection came back for want of memory.
    pub(crate) short: bool,
}

impl Books {
    /// So many connections are to go.
    pub(crate) fn new(count: usize) -> Books {
        Books {
            count,
            sent: 0,
            found: [false; MOST],
            back: 0,
            stayed: 0,
            ready: false,
            faulted: false,
            wrong: false,
            short: false,
        }
    }

    /// The next parcel to go.
    pub(crate) fn next(&self) -> Option<Parcel<Tag>> {
        if self.sent >= self.count {
            let is_last = self.sent == self.count && self.back == self.count;
            return if is_last {
                Some(Parcel::Stop { graceful: true })
            } else {
                None
            };
        }
        let serial = self.sent as u64;
        Some(Parcel::Conn {
            serial,
            token: self.sent % LISTENERS,
            place: serial.saturating_add(PLACES),
            link: Tag { name: serial },
        })
    }

    /// The next parcel went.
    pub(crate) fn count_sent(&mut self) {
        self.sent = self.sent.saturating_add(1);
    }

    /// Whether all went, or a fault was told.
    pub(crate) fn is_done(&self) -> bool {
        self.faulted || self.sent > self.count
    }

    // Marks a connection that was found. It is wrong where it was not sent, or was found before.
    fn mark(&mut self, serial: u64) {
        let was_sent = serial < self.sent as u64;
        match self.found.get_mut(serial as usize) {
            Some(found) if was_sent && !*found => *found = true,
            _ => self.wrong = true,
        }
    }

    /// A connection was found that did not come back.
    pub(crate) fn stay(&mut self, serial: u64) {
        self.mark(serial);
        self.stayed = self.stayed.saturating_add(1);
    }

    // A connection came back.
    fn enter(&mut self, entry: &Entry<Tag>) {
        self.mark(entry.serial);
        self.back = self.back.saturating_add(1);
        self.short = self.short || entry.outcome == Outcome::Memory;
        self.wrong = self.wrong || !self.ready || !is_as_sent(entry);
    }

    /// A note came.
    pub(crate) fn take(&mut self, note: &Note<Tag>) {
        self.wrong = self.wrong || self.faulted;
        match note {
            Note::Ready => {
                self.wrong = self.wrong || self.ready;
                self.ready = true;
            }
            Note::Back(entry) => self.enter(entry),
            Note::Faulted => self.faulted = true,
        }
    }

    /// Whether each connection was found once, where a job that ended so leaves it, and the job told what it has to.
    pub(crate) fn are_settled(&self, ending: Ending) -> bool {
        let is_told = match ending {
            Ending::Left => !self.faulted && self.stayed == 0,
            Ending::Unstarted { .. } => self.faulted && !self.ready && self.back == 0,
            Ending::Faulted { .. } => self.faulted && self.ready,
            Ending::Memory => false,
        };
        is_told && !self.wrong && self.back.saturating_add(self.stayed) == self.count
    }
}

// Whether the entry has the numbers and the link that were sent.
fn is_as_sent(entry: &Entry<Tag>) -> bool {
    entry.token as u64 == entry.serial % LISTENERS as u64
        && entry.place == entry.serial.saturating_add(PLACES)
        && entry.link.name == entry.serial
}
