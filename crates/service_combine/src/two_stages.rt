use service_core::Watched;
use std::sync::Arc;

/// How far a future has come that awaits a call of its first part, and then one of its second.
#[derive(Drop)]
pub(crate) enum TwoStages<X, Y, P> {
    First { future: Watched<X>, parts: Arc<P> },
    Second { future: Watched<Y> },
    Refused,
    /// The first part erred.
    Done,
}
