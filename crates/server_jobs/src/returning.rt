//! What comes back of a worker's connections at its join alone.
ghost use Rattle.std.specs.Prelude.{◌≡◌, ◌≤◌, ◌+◌, ◌<◌, ◌++◌, [], length, IsTrue, IsFalse};
ghost use Rattle.std.specs.Vec.Iter.{into_iter_items, into_iter_len};
ghost use Rattle.std.specs.VecDeque.{deque_len};
ghost use Rattle.rtrb.specs.Ring.{known_items};
ghost use Rattle.server_jobs.specs.Returning.{HandsFrom, HandsOn, brought_back, entries_of, entry_of_note, entry_of_parcel, entry_of_waiting, one_or_none};

use crate::handed::Handed;
use crate::line::Joined;
use crate::note::Note;
use crate::parcel::Parcel;
use crate::waiting::Waiting;
use rtrb::Consumer;
use server_run::{Done, Entry, Outcome};
use std::collections::VecDeque;
use std::vec::IntoIter;

// Hands on the connection of a note, if it has one.
fn hand_on_note<L: Drop, Do: Done<L>>(note: Note<L>, done: &mut Do)
    requires { length (one_or_none (entry_of_note note)) ≤ Do.spare done.old }
    ensures { HandsOn Do.taken Do.count Do.served Do.spare done.old done.new (one_or_none (entry_of_note note)) }
{
    match note {
        Note::Back(entry) => done.take(entry),
        Note::Ready | Note::Faulted => {}
    }
}

// Hands on the connection of a parcel, if it has one.
fn hand_on_parcel<L: Drop, Do: Done<L>>(parcel: Parcel<L>, done: &mut Do)
    requires { length (one_or_none (entry_of_parcel parcel)) ≤ Do.spare done.old }
    ensures { HandsOn Do.taken Do.count Do.served Do.spare done.old done.new (one_or_none (entry_of_parcel parcel)) }
{
    match parcel {
        Parcel::Conn {
            serial,
            token,
            place,
            link,
        } => done.take(Entry {
            serial,
            token,
            place,
            link,
            outcome: Outcome::Stopped { forced: false },
        }),
        Parcel::Stop { graceful: _ } => {}
    }
}

// Hands on a connection that has not ended, as one that its worker lost.
fn hand_on_waiting<L: Drop, Do: Done<L>>(waiting: Waiting<L>, worker: usize, done: &mut Do)
    requires { length (one_or_none (entry_of_waiting worker waiting)) ≤ Do.spare done.old }
    ensures { HandsOn Do.taken Do.count Do.served Do.spare done.old done.new (one_or_none (entry_of_waiting worker waiting)) }
{
    let Waiting {
        serial,
        token,
        place,
        link,
    } = waiting;
    done.take(Entry {
        serial,
        token,
        place,
        link,
        outcome: Outcome::Lost {
            worker: Some(worker),
        },
    });
}

// Hands on the first of what is on its way back. False where nothing is.
fn hand_on_first<L: Drop, Do: Done<L>>(notes: &mut Consumer<Note<L>>, done: &mut Do) -> bool
    requires { length (entries_of entry_of_note (known_items notes.old)) ≤ Do.spare done.old }
    ensures hands { HandsFrom entry_of_note Do.taken Do.count Do.served Do.spare (known_items notes.old) (known_items notes.new) done.old done.new }
    ensures fewer { IsTrue result → length (known_items notes.new) + 1 ≡ length (known_items notes.old) }
    ensures none { IsFalse result → known_items notes.new ≡ [] }
{
    if notes.cached_slots() == 0 {
        return false;
    }
    hand_on_note(notes.pop_known(), done);
    true
}

// Hands on the first of what is owed. False where nothing is.
fn hand_on_first_owed<L: Drop, Do: Done<L>>(owed: &mut VecDeque<Note<L>>, done: &mut Do) -> bool
    requires { length (entries_of entry_of_note owed.old.items) ≤ Do.spare done.old }
    ensures hands { HandsFrom entry_of_note Do.taken Do.count Do.served Do.spare owed.old.items owed.new.items done.old done.new }
    ensures fewer { IsTrue result → deque_len owed.new + 1 ≡ deque_len owed.old }
    ensures none { IsFalse result → owed.new.items ≡ [] }
{
    match owed.pop_front() {
        Some(note) => {
            hand_on_note(note, done);
            true
        }
        None => false,
    }
}

// Hands on the first of what has not ended. False where nothing is left.
fn hand_on_first_waiting<L: Drop, Do: Done<L>>(
    rest: &mut IntoIter<Waiting<L>>,
    worker: usize,
    done: &mut Do,
) -> bool
    requires { length (entries_of (entry_of_waiting worker) (into_iter_items rest.old)) ≤ Do.spare done.old }
    ensures hands { HandsFrom (entry_of_waiting worker) Do.taken Do.count Do.served Do.spare (into_iter_items rest.old) (into_iter_items rest.new) done.old done.new }
    ensures fewer { IsTrue result → into_iter_len rest.new + 1 ≡ into_iter_len rest.old }
    ensures none { IsFalse result → into_iter_items rest.new ≡ [] }
{
    match rest.next() {
        Some(waiting) => {
            hand_on_waiting(waiting, worker, done);
            true
        }
        None => false,
    }
}

// Hands on the first of what is left in the ring to the worker. False where nothing is.
fn hand_on_first_parcel<L: Drop, Do: Done<L>>(
    parcels: &mut Consumer<Parcel<L>>,
    done: &mut Do,
) -> bool
    requires { length (entries_of entry_of_parcel (known_items parcels.old)) ≤ Do.spare done.old }
    ensures hands { HandsFrom entry_of_parcel Do.taken Do.count Do.served Do.spare (known_items parcels.old) (known_items parcels.new) done.old done.new }
    ensures fewer { IsTrue result → length (known_items parcels.new) + 1 ≡ length (known_items parcels.old) }
    ensures none { IsFalse result → known_items parcels.new ≡ [] }
{
    if parcels.cached_slots() == 0 {
        return false;
    }
    hand_on_parcel(parcels.pop_known(), done);
    true
}

#[tactic(auto, using(crate::proofs::ReturnSteps::from_none, crate::proofs::ReturnSteps::from_trans, crate::proofs::ReturnSteps::room_left, crate::proofs::ReturnSteps::from_all))]
// Hands on what is on its way back.
fn hand_on_notes<L: Drop, Do: Done<L>>(notes: &mut Consumer<Note<L>>, done: &mut Do)
    requires { length (entries_of entry_of_note (known_items notes.old)) ≤ Do.spare done.old }
    ensures { HandsOn Do.taken Do.count Do.served Do.spare done.old done.new (entries_of entry_of_note (known_items notes.old)) }
{
    while hand_on_first(notes, done) {}
}

#[tactic(auto, using(crate::proofs::ReturnSteps::from_none, crate::proofs::ReturnSteps::from_trans, crate::proofs::ReturnSteps::room_left, crate::proofs::ReturnSteps::from_all))]
// Hands on what is owed.
fn hand_on_owed<L: Drop, Do: Done<L>>(owed: &mut VecDeque<Note<L>>, done: &mut Do)
    requires { length (entries_of entry_of_note owed.old.items) ≤ Do.spare done.old }
    ensures { HandsOn Do.taken Do.count Do.served Do.spare done.old done.new (entries_of entry_of_note owed.old.items) }
{
    while hand_on_first_owed(owed, done) {}
}

#[tactic(auto, using(crate::proofs::ReturnSteps::from_none, crate::proofs::ReturnSteps::from_trans, crate::proofs::ReturnSteps::room_left, crate::proofs::ReturnSteps::from_all))]
// Hands on what has not ended.
fn hand_on_rest<L: Drop, Do: Done<L>>(rest: &mut IntoIter<Waiting<L>>, worker: usize, done: &mut Do)
    requires { length (entries_of (entry_of_waiting worker) (into_iter_items rest.old)) ≤ Do.spare done.old }
    ensures { HandsOn Do.taken Do.count Do.served Do.spare done.old done.new (entries_of (entry_of_waiting worker) (into_iter_items rest.old)) }
{
    while hand_on_first_waiting(rest, worker, done) {}
}

#[tactic(auto, using(crate::proofs::ReturnSteps::from_none, crate::proofs::ReturnSteps::from_trans, crate::proofs::ReturnSteps::room_left, crate::proofs::ReturnSteps::from_all))]
// Hands on what is left in the ring to the worker.
fn hand_on_parcels<L: Drop, Do: Done<L>>(parcels: &mut Consumer<Parcel<L>>, done: &mut Do)
    requires { length (entries_of entry_of_parcel (known_items parcels.old)) ≤ Do.spare done.old }
    ensures { HandsOn Do.taken Do.count Do.served Do.spare done.old done.new (entries_of entry_of_parcel (known_items parcels.old)) }
{
    while hand_on_first_parcel(parcels, done) {}
}

impl<L: Drop, F: Drop, D> Joined<L, F, D> {
    /// Hands on each connection of the worker that comes back at its join alone: those on their way back and those that it owed, as
    /// they ended; those that it held, as lost by this worker, whose number it is given; and those that are left in its ring as stopped
    /// before a service got them. Returns why the worker left.
    pub fn hand_on<Do: Done<L>>(self, worker: usize, done: &mut Do) -> D
        requires { length (brought_back worker self) ≤ Do.spare done.old }
        ensures hands { HandsOn Do.taken Do.count Do.served Do.spare done.old done.new (brought_back worker self) }
        ensures departure { result ≡ self.handed.departure }
    {
        let Joined {
            parcels: _,
            mut notes,
            handed,
        } = self;
        let Handed {
            mut parcels,
            notes: _,
            factory: _,
            mut owed,
            rest,
            departure,
        } = handed;
        hand_on_notes(&mut notes, done);
        hand_on_owed(&mut owed, done);
        let mut rest = rest.into_iter();
        hand_on_rest(&mut rest, worker, done);
        hand_on_parcels(&mut parcels, done);
        departure
    }
}
