//! What serves a connection: a service of requests, one of expectations and one of upgrades, with how they are made, when they
//! are ready, and what they hand on.
#![tactic(auto)]

mod dispatch_error;
mod expect_handler;
mod flow;
mod framed;
mod http_flow_future;
mod http_init_error;
mod laws;
mod never;
mod part;
mod protocol;
mod ready_fault;
mod upgrade_handler;
mod upgrade_handler_future;

pub use dispatch_error::DispatchError;
pub use expect_handler::ExpectHandler;
pub use flow::HttpFlow;
pub use framed::{Framed, Handed, HandedEnd};
pub use http_flow_future::HttpFlowFuture;
pub use http_init_error::HttpInitError;
pub use laws::upgrade_handler_hands_back;
pub use never::Never;
pub use protocol::Protocol;
pub use ready_fault::ReadyFault;
pub use upgrade_handler::UpgradeHandler;
pub use upgrade_handler_future::UpgradeHandlerFuture;
