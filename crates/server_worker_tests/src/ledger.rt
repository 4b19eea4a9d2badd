use crate::ends::Ends;
use crate::kind::Kind;
use server_jobs::{Note, Parcel};
use server_run::{Entry, MemoryLink, Outcome};
use std::alloc::{AllocError, Global};

// A place is its connection's number and so much.
const PLACES: u64 = 70_000;

// A connection of a test.
#[derive(Clone, Copy)]
struct Row {
    token: usize,
    kind: Kind,
    // It is sent before that turn, where the ring has a place, or else before a later one.
    due: u32,
    came: bool,
}

// A connection that came back.
#[derive(Clone, Copy)]
struct Came {
    // The turn by which it came.
    turn: u32,
    serial: u64,
}

/// Where each connection of a test is: to be sent, sent, or back. It counts what is not as it has to be.
#[derive(Drop)]
pub(crate) struct Ledger {
    alloc: Global,
    rows: Vec<Row>,
    sent: usize,
    /// The turn that comes, or came last.
    pub(crate) turn: u32,
    // Those that came back, in order.
    came: Vec<Came>,
    /// The turn by which all services stood.
    pub(crate) ready: Option<u32>,
    faults: u64,
    lacks_memory: bool,
}

impl Ledger {
    /// Of no connection.
    pub(crate) fn new(alloc: Global) -> Ledger {
        Ledger {
            alloc,
            rows: Vec::new(alloc),
            sent: 0,
            turn: 0,
            came: Vec::new(alloc),
            ready: None,
            faults: 0,
            lacks_memory: false,
        }
    }

    /// One more, which is sent before that turn.
    pub(crate) fn add(&mut self, token: usize, kind: Kind, due: u32) -> Result<(), AllocError> {
        self.rows.push(Row {
            token,
            kind,
            due,
            came: false,
        })?;
        Ok(())
    }

    /// Counts a fault where this doesn't hold.
    pub(crate) fn confirm(&mut self, holds: bool) {
        if !holds {
            self.faults = self.faults.saturating_add(1);
        }
    }

    // The next one, where it is due.
    fn next(&self) -> Option<Row> {
        let row = *self.rows.get(self.sent)?;
        if row.due <= self.turn {
            Some(row)
        } else {
            None
        }
    }

    // Sends the next one. False where none is due, or the ring is full.
    fn send_one(&mut self, ends: &mut Ends) -> Result<bool, AllocError> {
        let Some(row) = self.next() else {
            return Ok(false);
        };
        if ends.parcels.is_full() {
            return Ok(false);
        }
        let serial = self.sent as u64;
        let link = row.kind.link(self.alloc, serial)?;
        ends.parcels.push_reserved(Parcel::Conn {
            serial,
            token: row.token,
            place: serial.saturating_add(PLACES),
            link,
        });
        self.sent = self.sent.saturating_add(1);
        Ok(true)
    }

    /// Sends those that are due, as far as the ring has places. Whether it sent any.
    pub(crate) fn send(&mut self, ends: &mut Ends) -> Result<bool, AllocError> {
        let mut any = false;
        for _ in 0..ends.parcels.capacity() {
            if !self.send_one(ends)? {
                break;
            }
            any = true;
        }
        Ok(any)
    }

    // The row of a connection that came back, as it was before. It is not there where the connection was not sent.
    fn mark(&mut self, serial: u64) -> Option<Row> {
        if serial >= self.sent as u64 {
            return None;
        }
        let row = self.rows.get_mut(serial as usize)?;
        let before = *row;
        row.came = true;
        Some(before)
    }

    // A connection came back.
    fn enter(&mut self, entry: &Entry<MemoryLink>) -> Result<(), AllocError> {
        self.came.push(Came {
            turn: self.turn,
            serial: entry.serial,
        })?;
        if entry.outcome == Outcome::Memory {
            self.lacks_memory = true;
        }
        let is_ready = self.ready.is_some();
        let row = self.mark(entry.serial);
        self.confirm(is_ready && is_of(row, entry));
        Ok(())
    }

    // Takes the next note. False where there is none.
    fn take_one(&mut self, ends: &mut Ends) -> Result<bool, AllocError> {
        match ends.notes.pop() {
            Ok(Note::Back(entry)) => self.enter(&entry)?,
            Ok(Note::Ready) => {
                let is_first = self.ready.is_none() && self.came.is_empty();
                self.confirm(is_first);
                self.ready = Some(self.turn);
            }
            Ok(Note::Faulted) => self.confirm(false),
            Err(_) => return Ok(false),
        }
        Ok(true)
    }

    /// Takes what the ring back holds. Whether that was all of its places, but the one for the note of a fault.
    pub(crate) fn take(&mut self, ends: &mut Ends) -> Result<bool, AllocError> {
        for _ in 1..ends.notes.capacity() {
            if !self.take_one(ends)? {
                return Ok(false);
            }
        }
        Ok(true)
    }

    /// Those that were sent came back, or the worker holds them, where it owes no note: so many then, and at most so many else.
    pub(crate) fn weigh(&mut self, total: u64, owes: bool) {
        let back = self.came.len() as u64;
        let sent = self.sent as u64;
        let all = back.saturating_add(total);
        self.confirm(all == sent || (owes && all < sent));
    }

    /// How many came back.
    pub(crate) fn back(&self) -> usize {
        self.came.len()
    }

    /// Whether as many came back as there are.
    pub(crate) fn is_done(&self) -> bool {
        self.rows.len() == self.came.len()
    }

    /// The turn by which the first one came.
    pub(crate) fn first(&self) -> Option<u32> {
        let came = self.came.first()?;
        Some(came.turn)
    }

    /// The turn by which the last one came.
    pub(crate) fn last(&self) -> Option<u32> {
        let came = self.came.last()?;
        Some(came.turn)
    }

    /// Whether the same ones came in the same order.
    pub(crate) fn is_in_order_of(&self, other: &Ledger) -> bool {
        for (one, two) in self.came.iter().zip(other.came.iter()) {
            if one.serial != two.serial {
                return false;
            }
        }
        self.came.len() == other.came.len()
    }

    /// Whether each came back, once and as it has to be, but for so many that stayed.
    pub(crate) fn is_settled(&self, stayed: usize) -> Result<bool, AllocError> {
        if self.lacks_memory {
            return Err(AllocError);
        }
        Ok(self.faults == 0 && self.rows.len() == self.came.len().saturating_add(stayed))
    }
}

// Whether the entry is that of the row, which had not come back.
fn is_of(row: Option<Row>, entry: &Entry<MemoryLink>) -> bool {
    let Some(row) = row else {
        return false;
    };
    !row.came
        && entry.token == row.token
        && entry.place == entry.serial.saturating_add(PLACES)
        && entry.outcome == row.kind.outcome()
        && row.kind.is_done(entry.serial, &entry.link)
}
