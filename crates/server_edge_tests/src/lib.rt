//! Tests of `server_edge` and `server_jobs`: jobs on real threads, starts that are refused, clocks.
#![tactic(auto)]

#[cfg(test)]
mod clock_tests;
#[cfg(test)]
mod ferry;
#[cfg(test)]
mod lines;
#[cfg(test)]
mod numbered;
#[cfg(test)]
mod thread_tests;
