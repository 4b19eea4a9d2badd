/// Why a worker ends by a fault.
#[derive(Drop)]
pub(crate) struct Fault<E, I> {
    /// The token of the service.
    pub(crate) token: usize,
    /// The error of its readiness.
    pub(crate) readiness: E,
    /// The error of its factory.
    pub(crate) error: I,
}
