/// Why no listener is served.
#[derive(Clone, Copy, Debug, PartialEq, Eq)]
pub enum ListenError {
    /// The binder refused the address.
    Refused,
    /// A worker could not be started.
    NoWorker,
    /// Memory ran out.
    Memory,
}
