//! The services of a script's connections: its handler under its policy, over HTTP/1.
#![tactic(auto)]

mod parts;
mod replay_factory;
mod replay_future;
mod replay_making;
mod replay_service;
mod replay_services;

pub use replay_factory::ReplayFactory;
pub use replay_future::ReplayFuture;
pub use replay_making::ReplayMaking;
pub use replay_service::ReplayService;
pub use replay_services::ReplayServices;
