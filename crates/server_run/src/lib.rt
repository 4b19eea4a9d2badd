//! What a server asks of the outside as traits, what it tells of a run, and objects in memory that meet the traits.
#![tactic(auto)]

mod done;
mod entry;
mod host;
mod keep_all;
mod listener;
mod listener_step;
mod memory_link;
mod memory_listener;
mod outcome;
mod read_step;
mod report;
mod serve_error;
mod server_service_factory;
mod write_step;

pub use done::Done;
pub use entry::Entry;
pub use host::Host;
pub use keep_all::KeepAll;
pub use listener::{Accepted, Listener};
pub use listener_step::ListenerStep;
pub use memory_link::MemoryLink;
pub use memory_listener::MemoryListener;
pub use outcome::Outcome;
pub use read_step::ReadStep;
pub use report::{End, ListenerState, Report};
pub use serve_error::ServeError;
pub use server_service_factory::ServerServiceFactory;
pub use write_step::WriteStep;
