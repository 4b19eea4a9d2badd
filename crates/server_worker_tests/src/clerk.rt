//! A worker on a thread of its own.
ghost use Rattle.std.specs.Prelude.{⊤};

use crate::plan::PLAIN;
use crate::station::{Ending, Station, opened, turn_once};
use futures::task::Queue;
use rtrb::{Consumer, Producer};
use server_jobs::{Job, Note, Parcel, Waiter};
use server_run::{Host, MemoryLink};
use std::alloc::Global;
use std::sync::Wait;
use std::time::Clock;

/// Turns a worker until it ends, and hands over whether it left with nothing.
#[derive(Drop)]
pub(crate) struct Clerk {
    pub(crate) queue: Queue,
    pub(crate) alloc: Global,
    pub(crate) parcels: Consumer<Parcel<MemoryLink>>,
    pub(crate) notes: Producer<Note<MemoryLink>>,
}

// Turns the worker until it ends. Whether it left with nothing.
fn turn_on<S: Station, Ho: Wait + Clock>(
    host: &Ho,
    queue: &Queue,
    station: &mut S,
    waiter: &mut Waiter<Ho>,
) -> bool
    requires { S.goes_on station.old }
{
    for _ in host.forever() {
        let before = station.total();
        if let Some(ending) = turn_once(host, queue, None, station) {
            return ending == Ending::Left(true);
        }
        if station.total() != before {
            waiter.stirred();
        }
        waiter.ring();
        waiter.wait();
    }
    false
}

// The whole work. Where there is no memory for the worker, it ends at once.
fn attend<Ho: Clone + Drop + Wait + Clock>(clerk: Clerk, waiter: Waiter<Ho>) -> bool {
    let Clerk {
        queue,
        alloc,
        parcels,
        notes,
    } = clerk;
    let mut waiter = waiter;
    let Ok(mut station) = opened(alloc, parcels, notes, PLAIN) else {
        return false;
    };
    match waiter.host().clone() {
        Ok(host) => turn_on(&host, &queue, &mut station, &mut waiter),
        Err(_) => false,
    }
}

impl Job for Clerk {
    type Out = bool;

    ghost can_work = { λ _. ⊤ };

    ghost promise = { λ _ _. ⊤ };

    fn work<Ho: Host>(self, waiter: Waiter<Ho>) -> bool {
        attend(self, waiter)
    }
}
