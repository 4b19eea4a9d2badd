//! Tests of `server_sockets`, over sockets of the loopback and of files: bytes both ways, ends, faults and refused binds.
#![tactic(auto)]

#[cfg(test)]
mod bind_tests;
#[cfg(test)]
mod clients;
#[cfg(test)]
mod echo;
#[cfg(test)]
mod link_tests;
