//! How an acceptor is made.
ghost use Rattle.std.specs.Prelude.{◌≡◌, ◌≤◌, length, IfOk};
ghost use Rattle.server_acceptor.specs.Beginning.{IsNew, IsRoomFor};

use crate::acceptor::Acceptor;
use crate::room::Room;
use rtrb::{Consumer, Producer};
use server_core::AcceptCore;
use server_jobs::{Note, Parcel};
use std::alloc::{AllocError, Global};

impl<L: Drop> Acceptor<L> {
    /// An acceptor over the ends of the workers' rings, one of each for each worker, with room that was made before. A worker gets at
    /// most `limit` connections at once, and a listener that fails `retry_limit` times with no connection between is given up. The
    /// timeout is in seconds.
    pub fn with_room(
        room: Room,
        parcels: Vec<Producer<Parcel<L>>>,
        notes: Vec<Consumer<Note<L>>>,
        listeners: usize,
        limit: u64,
        retry_limit: u64,
        shutdown_timeout: u64,
    ) -> Acceptor<L>
        requires some_workers { 1 ≤ length parcels.items }
        requires most_workers { length parcels.items ≤ 512 }
        requires as_many { length notes.items ≡ length parcels.items }
        requires some_listeners { 1 ≤ listeners }
        requires most_listeners { listeners ≤ 64 }
        requires some_connections { 1 ≤ limit }
        requires some_failures { 1 ≤ retry_limit }
        requires room { IsRoomFor room (length parcels.items) listeners }
        ensures { IsNew result parcels.items notes.items listeners limit retry_limit shutdown_timeout }
    {
        let Room {
            events,
            ready,
            stopped,
            forced,
            places,
            failed,
        } = room;
        let core = AcceptCore::new(parcels.len(), listeners);
        Acceptor {
            core,
            events,
            parcels,
            notes,
            ready,
            stopped,
            forced,
            stop: None,
            waiting: None,
            serial: 0,
            places,
            out: 0,
            failed,
            first: 0,
            limit,
            retry_limit,
            shutdown_timeout,
            lacks_room: false,
        }
    }

    /// An acceptor as `with_room` makes it, with room for 8 events a worker and 600 more. It is refused only for want of memory.
    pub fn new(
        alloc: Global,
        parcels: Vec<Producer<Parcel<L>>>,
        notes: Vec<Consumer<Note<L>>>,
        listeners: usize,
        limit: u64,
        retry_limit: u64,
        shutdown_timeout: u64,
    ) -> Result<Acceptor<L>, AllocError>
        requires some_workers { 1 ≤ length parcels.items }
        requires most_workers { length parcels.items ≤ 512 }
        requires as_many { length notes.items ≡ length parcels.items }
        requires some_listeners { 1 ≤ listeners }
        requires most_listeners { listeners ≤ 64 }
        requires some_connections { 1 ≤ limit }
        requires some_failures { 1 ≤ retry_limit }
        ensures { IfOk result (λ a. IsNew a parcels.items notes.items listeners limit retry_limit shutdown_timeout) }
    {
        let room = Room::new(alloc, parcels.len(), listeners)?;
        Ok(Acceptor::with_room(
            room,
            parcels,
            notes,
            listeners,
            limit,
            retry_limit,
            shutdown_timeout,
        ))
    }
}
