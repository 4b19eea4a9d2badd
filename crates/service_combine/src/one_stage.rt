use service_core::Watched;
use std::sync::Arc;

/// How far a future has come that awaits one part, and then its closure.
#[derive(Drop)]
pub(crate) enum OneStage<Fut, F> {
    Waiting { future: Watched<Fut>, f: Arc<F> },
    Refused,
    Done,
}
