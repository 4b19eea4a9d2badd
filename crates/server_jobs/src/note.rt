use server_run::Entry;

/// What goes over the ring back from a worker.
#[derive(Drop)]
pub enum Note<L> {
    /// All its services were made for the first time.
    Ready,
    /// A connection that has ended.
    Back(Entry<L>),
    /// It ends by a fault. No note follows.
    Faulted,
}
