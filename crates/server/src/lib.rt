//! The server: it starts its workers, accepts until its listeners have ended, and joins the workers again.
#![tactic(auto)]

mod accepting;
mod bind_error;
mod binding;
mod builder;
mod building;
mod joining;
mod parting;
mod prepared;
mod replacing;
mod rests;
mod returning;
mod running;
mod server;
mod serving;
mod settings;
mod start_fault;
mod starting;
mod states;
mod taking_back;
mod unstarted;

pub use bind_error::BindError;
pub use builder::ServerBuilder;
pub use building::new;
pub use server::Server;
pub use settings::Settings;
