//! A service of connections for the examples: each HTTP request is answered with a few words, and one for `/stop` stops the server.
#![tactic(auto)]

mod answering;
mod making;
mod reading;
mod reply;
mod stop_handle;
mod stoppable;
mod stoppables;
mod writing;

pub use answering::Answering;
pub use reply::Reply;
pub use stop_handle::StopHandle;
pub use stoppable::Stoppable;
pub use stoppables::Stoppables;
