use crate::connections::Connections;
use crate::services::Services;
use server_run::ServerServiceFactory;
use service_core::{Link, Service, ServiceFactory};

/// A worker (`actix-server`'s `ServerWorker`): it takes connections from its ring, and serves them by the services that its factory
/// makes. What has ended it hands back over the other ring.
#[derive(Drop)]
pub struct Worker<L: Link, F: ServerServiceFactory<L>> {
    pub(crate) factory: F,
    pub(crate) services: Services<
        F::Factory,
        <F::Factory as ServiceFactory<L>>::Future,
        <F::Factory as ServiceFactory<L>>::Service,
        <F::Factory as ServiceFactory<L>>::Error,
    >,
    pub(crate) hand: Connections<
        L,
        <<F::Factory as ServiceFactory<L>>::Service as Service<L>>::Future,
    >,
    // How many connections it held at the end of the last turn, queued and live; after a stop that is not graceful, how many were live
    // before that turn.
    pub(crate) total: u64,
    // The last turn handed something back.
    pub(crate) posted: bool,
}

impl<L: Link, F: ServerServiceFactory<L>> Worker<L, F> {
    /// Whether the last turn handed something back over the ring. It claims nothing.
    pub fn has_posted(&self) -> bool {
        self.posted
    }
}
