//! Connections that are made from a number, and the script that serves them.
#![tactic(auto)]

mod generating;
mod generator;
mod requests;
mod serving;

pub use generating::{Generated, generate};
