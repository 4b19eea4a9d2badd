//! A script served and reported, and connections that are made, served and summed up.
#![tactic(auto)]

mod generating;
mod replay_error;
mod replaying;
mod serving;

pub use generating::generate;
pub use replay_error::ReplayError;
pub use replaying::replay;
