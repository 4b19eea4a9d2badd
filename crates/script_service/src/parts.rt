//! The types that the services of a script are made of.
use cors_answer::{Cors, CorsFault, CorsInitError, CorsMiddleware};
use handlers::{EchoUpgrade, ExpectationFault, HandlerService, ScriptExpect};
use http_flow::{DispatchError, HttpInitError, Never};
use http_service::{HttpServiceFactoryResponse, HttpServiceHandler, HttpTcpFactory};
use http1_dispatcher::Dispatcher;
use http1_plain::Request;
use script::ScriptRule;
use service_core::ApplyTransform;
use std::sync::Arc;

/// Makes the services of requests: a handler under the policy.
pub(crate) type Policed = ApplyTransform<Arc<Cors<ScriptRule>>, HandlerService, Request>;

/// Answers requests.
pub(crate) type PolicedService = CorsMiddleware<HandlerService, ScriptRule>;

/// Makes the services of connections.
pub(crate) type Factory<L> = HttpTcpFactory<L, Policed, ScriptExpect, EchoUpgrade>;

/// A service of connections in making.
pub(crate) type Making<L> = HttpServiceFactoryResponse<L, Policed, ScriptExpect, EchoUpgrade>;

/// Serves connections.
pub(crate) type Handler<L> = HttpServiceHandler<L, PolicedService, ScriptExpect, EchoUpgrade>;

/// A connection that is served.
pub(crate) type Connection<L> = Dispatcher<L, PolicedService, ScriptExpect, EchoUpgrade>;

/// What the services of connections may err with.
pub(crate) type Fault<L> = DispatchError<L, CorsFault, ExpectationFault, Never>;

/// What comes in place of a service of connections.
pub(crate) type InitError = HttpInitError<CorsInitError, Never, Never>;
