//! How a job ends by a fault, and how one does for which there was no worker.
ghost use Rattle.std.specs.Prelude.{◌<◌};
ghost use Rattle.rtrb.specs.Ring.{known_free};
ghost use Rattle.worker_job.specs.Leaving.{GivesUp, TellsLast};

use crate::departure::Departure;
use server_jobs::{Handed, Note};
use server_worker::WorkerParts;
use service_core::Link;
use std::alloc::Global;
use std::collections::VecDeque;

// Lets the acceptor know of a fault by the last note, for which the ring back has a place.
pub(crate) fn tell_fault<L: Link, F, E, I>(handed: &mut Handed<L, F, Departure<E, I>>)
    requires { 0 < known_free handed.old.notes }
    ensures { TellsLast handed.old handed.new }
{
    if handed.departure.is_fault() {
        handed.notes.push_reserved(Note::Faulted);
    }
}

// Hands the parts of a worker back, for which there was no memory.
pub(crate) fn give_up<L: Link, F, E, I>(
    alloc: Global,
    parts: WorkerParts<L, F>,
) -> Handed<L, F, Departure<E, I>>
    requires { 0 < known_free parts.notes }
    ensures { GivesUp parts result }
{
    let WorkerParts {
        parcels,
        notes,
        factory,
    } = parts;
    let mut handed = Handed {
        parcels,
        notes,
        factory,
        owed: VecDeque::new(alloc),
        rest: Vec::new(alloc),
        departure: Departure::Memory,
    };
    tell_fault(&mut handed);
    handed
}
