//! Where connections are once the thread of a job is joined.
use crate::books::Books;
use crate::ending::Ending;
use crate::plan::Plan;
use crate::tag::Tag;
use rtrb::Consumer;
use server_jobs::{Joined, Note, Parcel, Waiting};
use std::alloc::AllocError;
use worker_job::Departure;

/// What a join of the tests gives.
pub(crate) type Found = Joined<Tag, Plan, Departure<usize, usize>>;

// Takes the notes that are left in the ring back.
fn take_notes(notes: &mut Consumer<Note<Tag>>, books: &mut Books) {
    for _ in 0..notes.capacity() {
        match notes.pop() {
            Ok(note) => books.take(&note),
            Err(_) => return,
        }
    }
}

// Takes the parcels that are left in the ring to the worker.
fn take_parcels(parcels: &mut Consumer<Parcel<Tag>>, books: &mut Books) {
    for _ in 0..parcels.capacity() {
        match parcels.pop() {
            Ok(Parcel::Conn { serial, .. }) => books.stay(serial),
            Ok(Parcel::Stop { .. }) => {}
            Err(_) => return,
        }
    }
}

// Looks at what has not ended.
fn look_at(rest: &[Waiting<Tag>], books: &mut Books) {
    for waiting in rest.iter() {
        books.stay(waiting.serial);
    }
}

/// Whether the job ended so and owes no note, and each connection was found once, where it has to be then.
pub(crate) fn is_right(
    found: &mut Found,
    books: &mut Books,
    wanted: Ending,
) -> Result<bool, AllocError> {
    take_notes(&mut found.notes, books);
    take_parcels(&mut found.handed.parcels, books);
    look_at(&found.handed.rest, books);
    let ending = Ending::of(&found.handed.departure);
    if ending == Ending::Memory || books.short {
        return Err(AllocError);
    }
    Ok(ending == wanted && books.are_settled(wanted) && found.handed.owed.is_empty())
}
