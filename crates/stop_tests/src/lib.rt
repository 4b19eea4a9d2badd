//! Tests of `server`: whole runs that are told to pause, to go on and to stop.
#![tactic(auto)]

#[cfg(test)]
mod handle_tests;
#[cfg(test)]
mod stop_tests;
#[cfg(test)]
mod stress_tests;
#[cfg(test)]
mod telling;
