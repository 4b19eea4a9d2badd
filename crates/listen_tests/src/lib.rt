//! Tests of the form `listen` of the program: two links each of which waits in one read for the other, listeners of a binder
//! in memory, and runs that are refused.
#![tactic(auto)]

#[cfg(test)]
mod gated_binder;
#[cfg(test)]
mod gated_link;
#[cfg(test)]
mod gated_listener;
#[cfg(test)]
mod gated_tests;
#[cfg(test)]
mod memory_tests;
#[cfg(test)]
mod runs;
#[cfg(test)]
mod shared;
#[cfg(test)]
mod shown;
#[cfg(test)]
mod stocks;
#[cfg(test)]
mod word_tests;
