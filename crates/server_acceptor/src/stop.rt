/// The first stop that was taken up.
#[derive(Clone, Copy, Debug, PartialEq, Eq, Drop)]
pub struct Stop {
    /// Whether the workers may serve to their end the connections that they have.
    pub graceful: bool,
    /// When it was taken up, in milliseconds of the clock.
    pub since: u64,
}
