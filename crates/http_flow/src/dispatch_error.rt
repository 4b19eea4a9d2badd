use crate::{Protocol, ReadyFault};

/// Why a service of connections serves none (actix-http, `DispatchError`).
#[derive(Debug, Drop)]
pub enum DispatchError<L, E, XE, UE> {
    /// A service of the connection is not ready, and errs. It comes from readiness alone.
    Service(ReadyFault<E, XE, UE>),
    /// The connection speaks a protocol that is not served. Its link is as it was given.
    UnsupportedProtocol(Protocol, L),
}
