/// What comes next when a link in memory is written to.
#[derive(Clone, Copy, Debug, PartialEq, Eq)]
pub enum WriteStep {
    /// One write takes at most so many bytes.
    Take(usize),
    /// One write is pending.
    NotYet,
    /// One write fails.
    Fail,
}
