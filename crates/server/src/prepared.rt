//! What a run takes before its first worker starts.
ghost use Rattle.std.specs.Prelude.{◌≡◌, ◌≤◌, [], vec_capacity, IfOk};
ghost use Rattle.server_acceptor.specs.Beginning.{IsRoomFor};

use rtrb::{Consumer, Producer};
use server_acceptor::Room;
use server_jobs::{Note, OneTask, Parcel};
use server_run::ListenerState;
use std::alloc::{AllocError, Global};

// All room that a run needs beside its workers, so that it is refused before a worker starts.
#[derive(Drop)]
pub(crate) struct Prepared<L: Drop> {
    // What the acceptor needs.
    pub(crate) room: Room,
    // For the ends of the workers' rings.
    pub(crate) parcels: Vec<Producer<Parcel<L>>>,
    pub(crate) notes: Vec<Consumer<Note<L>>>,
    // For what is told of the listeners.
    pub(crate) states: Vec<ListenerState>,
    // The acceptor's.
    pub(crate) task: OneTask,
}

impl<L: Drop> Prepared<L> {
    pub(crate) fn new(
        alloc: Global,
        workers: usize,
        listeners: usize,
    ) -> Result<Prepared<L>, AllocError>
        requires { workers ≤ 512 }
        ensures room { IfOk result (λ p. IsRoomFor p.room workers listeners) }
        ensures ends { IfOk result (λ p. (p.parcels.items ≡ []) × (p.notes.items ≡ []) × (workers ≤ vec_capacity p.parcels) × (workers ≤ vec_capacity p.notes)) }
        ensures states { IfOk result (λ p. (p.states.items ≡ []) × (listeners ≤ vec_capacity p.states)) }
    {
        let room = Room::new(alloc, workers, listeners)?;
        let parcels = Vec::with_capacity(alloc, workers)?;
        let notes = Vec::with_capacity(alloc, workers)?;
        let states = Vec::with_capacity(alloc, listeners)?;
        let Some(task) = OneTask::new(alloc, 0) else {
            return Err(AllocError);
        };
        Ok(Prepared {
            room,
            parcels,
            notes,
            states,
            task,
        })
    }
}
