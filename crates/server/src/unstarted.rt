// A worker whose service could not be made for the first time.
#[derive(Drop)]
pub(crate) struct Unstarted<I> {
    // The number of the worker.
    pub(crate) worker: usize,
    // The place of the listener in the list of listeners.
    pub(crate) token: usize,
    // What the factory of the token answered.
    pub(crate) error: I,
}
