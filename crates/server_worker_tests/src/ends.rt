use rtrb::{Consumer, Producer};
use server_jobs::{Note, Parcel};
use server_run::MemoryLink;

/// The ends of two rings that a worker does not have.
#[derive(Drop)]
pub(crate) struct Ends {
    /// The end of the ring to it.
    pub(crate) parcels: Producer<Parcel<MemoryLink>>,
    /// The end of the ring back.
    pub(crate) notes: Consumer<Note<MemoryLink>>,
}

impl Ends {
    /// Tells the worker to stop, once what it serves has ended. False where the ring has no place.
    pub(crate) fn stop(&mut self) -> bool {
        self.stop_by(true)
    }

    /// Tells the worker to stop, gracefully or not. False where the ring has no place.
    pub(crate) fn stop_by(&mut self, graceful: bool) -> bool {
        self.parcels.push(Parcel::Stop { graceful }).is_ok()
    }
}
