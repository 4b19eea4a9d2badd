use server_run::End;

/// What a listener that was served came to.
#[derive(Clone, Copy, Debug, PartialEq, Eq)]
pub struct Heard {
    /// How many connections it gave.
    pub connections: u64,
    /// How many of them were served.
    pub served: u64,
    /// Why nothing more was accepted.
    pub end: End,
}
