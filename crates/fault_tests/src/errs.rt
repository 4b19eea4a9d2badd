/// Where the services of a token err at a readiness.
#[derive(Clone, Copy)]
pub(crate) enum Errs {
    /// Nowhere.
    Never,
    /// Once they were called so often. None is made in their place.
    AfterCalls(u64),
    /// At their second readiness. None is made in their place, which is told once the listener has ended.
    AtEnd,
    /// At one readiness in so many, once they were called. Every other one in their place is refused.
    OneIn(u64),
}
