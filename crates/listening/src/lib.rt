//! A bound listener, served: the server behind `listen`.
#![tactic(auto)]

mod binding;
mod heard;
mod listen_error;
mod listening;
mod serving;

pub use heard::Heard;
pub use listen_error::ListenError;
pub use listening::listen;
