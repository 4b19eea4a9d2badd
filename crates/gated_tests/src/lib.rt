//! A test that workers serve side by side: two calls, each of which waits in one poll for the other.
#![tactic(auto)]

#[cfg(test)]
mod call;
#[cfg(test)]
mod call_tests;
#[cfg(test)]
mod flags;
#[cfg(test)]
mod gate;
#[cfg(test)]
mod gate_factory;
#[cfg(test)]
mod gate_future;
#[cfg(test)]
mod gate_making;
#[cfg(test)]
mod gate_service;
#[cfg(test)]
mod gate_services;
#[cfg(test)]
mod parts;
#[cfg(test)]
mod serving;
