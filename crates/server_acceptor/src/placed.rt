/// What became of the connection that waits.
#[derive(Clone, Copy, Debug, PartialEq, Eq, Drop)]
pub enum Placed {
    /// It went to this worker.
    Sent(usize),
    /// It still waits: no worker is free that has a place for it.
    Waiting,
    /// None waits.
    Nothing,
}
