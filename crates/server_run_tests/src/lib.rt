//! Tests of a server's objects in memory, by their public calls.
#![tactic(auto)]

#[cfg(test)]
mod memory_link_tests;
#[cfg(test)]
mod memory_tests;
