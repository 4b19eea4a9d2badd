//! Tests of what a server is told, by public calls: scripts, handles with their replies, and signals.
#![tactic(auto)]

#[cfg(test)]
mod asked;
#[cfg(test)]
mod countdown;
#[cfg(test)]
mod handle_tests;
#[cfg(test)]
mod script_tests;
#[cfg(test)]
mod signal_tests;
#[cfg(test)]
mod thread_tests;
