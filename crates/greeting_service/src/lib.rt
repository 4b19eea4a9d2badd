//! A service of connections for the examples: a peer sends a line with its name, and is greeted.
#![tactic(auto)]

mod greeter;
mod greeters;
mod greeting;
mod words;

pub use greeter::Greeter;
pub use greeters::Greeters;
pub use greeting::Greeting;
pub use words::Words;
