//! The types that the services of connections are made of.
use crate::flags::SharedFlags;
use crate::gate::Gate;
use http_flow::{DispatchError, ExpectHandler, HttpInitError, Never, UpgradeHandler};
use http_service::{HttpServiceFactoryResponse, HttpServiceHandler, HttpTcpFactory};
use http1_dispatcher::Dispatcher;
use std::alloc::AllocError;

/// Answers requests, and makes the services that do.
pub(crate) type Calls = Gate<SharedFlags>;

/// Makes the services of connections.
pub(crate) type Factory<L> = HttpTcpFactory<L, Calls, ExpectHandler, UpgradeHandler>;

/// A service of connections in making.
pub(crate) type Making<L> = HttpServiceFactoryResponse<L, Calls, ExpectHandler, UpgradeHandler>;

/// Serves connections.
pub(crate) type Handler<L> = HttpServiceHandler<L, Calls, ExpectHandler, UpgradeHandler>;

/// A connection that is served.
pub(crate) type Connection<L> = Dispatcher<L, Calls, ExpectHandler, UpgradeHandler>;

/// What the services of connections may err with.
pub(crate) type Fault<L> = DispatchError<L, AllocError, Never, Never>;

/// What comes in place of a service of connections.
pub(crate) type InitError = HttpInitError<AllocError, Never, Never>;
