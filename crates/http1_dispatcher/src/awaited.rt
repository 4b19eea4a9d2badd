/// The future of a service that is waited for.
#[derive(Drop)]
pub(crate) enum Awaited<F, X> {
    /// None is.
    Nothing,
    /// The service of requests was called.
    Response(F),
    /// The expect service was.
    Expectation(X),
}
