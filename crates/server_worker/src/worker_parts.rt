use rtrb::{Consumer, Producer};
use server_jobs::{Note, Parcel};

/// What a worker is made of. `Worker::new` hands it back where there is no memory for a worker.
#[derive(Drop)]
pub struct WorkerParts<L, F> {
    /// Its end of the ring to it.
    pub parcels: Consumer<Parcel<L>>,
    /// Its end of the ring back.
    pub notes: Producer<Note<L>>,
    /// The factory of its services.
    pub factory: F,
}
