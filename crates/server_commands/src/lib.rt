//! What a running server is told: to pause, to go on and to stop, by a script, by handles and by a signal.
#![tactic(auto)]

mod awaited;
mod command_queue;
mod commands;
mod counts;
mod flag;
mod graceful_shutdown_signal;
mod handle_commands;
mod no_commands;
mod owed;
mod posted;
mod posts;
mod raiser;
mod reply;
mod script_commands;
mod server_handle;
mod with_signal;

pub use command_queue::CommandQueue;
pub use commands::{Commands, Next};
pub use graceful_shutdown_signal::GracefulShutdownSignal;
pub use handle_commands::HandleCommands;
pub use no_commands::NoCommands;
pub use reply::Reply;
pub use script_commands::{CommandStep, ScriptCommands};
pub use server_handle::ServerHandle;
pub use with_signal::WithSignal;
