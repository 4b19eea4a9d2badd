//! How a server comes to its listeners, one that ends after so many connections, and what closes the links that it is done with.
#![tactic(auto)]

mod binder;
mod close_all;
mod limited;
mod memory_binder;

pub use binder::{BindFailed, Binder};
pub use close_all::CloseAll;
pub use limited::Limited;
pub use memory_binder::MemoryBinder;
