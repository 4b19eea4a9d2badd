//! The bookkeeping of an acceptor, with no thread and no memory.
#![tactic(auto)]

mod accept_core;
mod availability;
mod command;
mod event;
pub mod laws;
mod turns;

pub use accept_core::AcceptCore;
pub use availability::{Availability, MAX_WORKERS};
pub use command::Command;
pub use event::Event;
