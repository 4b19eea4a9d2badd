//! Tests of what binds addresses for a server, of listeners with a limit, and of what closes links, by public calls.
#![tactic(auto)]

#[cfg(test)]
mod binder_tests;
#[cfg(test)]
mod builder_tests;
#[cfg(test)]
mod close_tests;
#[cfg(test)]
mod limit_tests;
#[cfg(test)]
mod listening;
#[cfg(test)]
mod two_addresses;
