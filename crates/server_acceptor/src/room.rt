ghost use Rattle.std.specs.Prelude.{◌≤◌, IfOk};
ghost use Rattle.server_acceptor.specs.Beginning.{IsRoomFor};

use server_core::Event;
use std::alloc::{AllocError, Global};

/// The room that an acceptor takes beside its rings.
#[derive(Drop)]
pub struct Room {
    pub(crate) events: Vec<Event>,
    pub(crate) ready: Vec<bool>,
    pub(crate) stopped: Vec<bool>,
    pub(crate) forced: Vec<bool>,
    pub(crate) places: Vec<u64>,
    pub(crate) failed: Vec<Option<u64>>,
}

impl Room {
    /// Room for an acceptor over so many workers and listeners. It is refused only for want of memory.
    pub fn new(alloc: Global, workers: usize, listeners: usize) -> Result<Room, AllocError>
        requires { workers ≤ 512 }
        ensures { IfOk result (λ room. IsRoomFor room workers listeners) }
    {
        Ok(Room {
            events: Vec::with_capacity(alloc, 8 * workers + 600)?,
            ready: vec![in alloc; false; workers]?,
            stopped: vec![in alloc; false; workers]?,
            forced: vec![in alloc; false; workers]?,
            places: vec![in alloc; 0; listeners]?,
            failed: vec![in alloc; None; listeners]?,
        })
    }
}
