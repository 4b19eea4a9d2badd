use crate::rules::Rules;
use http_flow::HttpFlow;
use service_core::Peer;
use std::alloc::Global;
use std::snapshot::Snapshot;
use std::sync::Arc;

/// What the service of a connection goes by, from its start to its end.
#[derive(Drop)]
pub(crate) struct Terms<L, S, X, U> {
    /// The link as it was given.
    pub(crate) before: Snapshot<L>,
    pub(crate) flow: Arc<HttpFlow<S, X, U>>,
    pub(crate) rules: Rules,
    pub(crate) peer: Peer,
    pub(crate) alloc: Global,
}
