/// A connection that has not ended, with its numbers.
#[derive(Drop)]
pub struct Waiting<L> {
    /// Its number among all that were accepted.
    pub serial: u64,
    /// The place of its listener in the list of listeners.
    pub token: usize,
    /// Its number among the connections of that listener.
    pub place: u64,
    /// Its link, as it stands.
    pub link: L,
}
