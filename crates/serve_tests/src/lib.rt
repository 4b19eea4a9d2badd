//! Tests of `server`: whole runs over workers on threads of their own, from the settings to the report. Those that are told to stop
//! stand in `stop_tests`.
#![tactic(auto)]

#[cfg(test)]
mod builder_tests;
#[cfg(test)]
mod run_tests;
#[cfg(test)]
mod serving;
#[cfg(test)]
mod start_tests;
