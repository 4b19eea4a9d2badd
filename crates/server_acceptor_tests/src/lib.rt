//! Tests of `server_acceptor`: an acceptor that is turned by hand, beside workers that the test plays.
#![tactic(auto)]

#[cfg(test)]
mod act;
#[cfg(test)]
mod answer;
#[cfg(test)]
mod book;
#[cfg(test)]
mod command_tests;
#[cfg(test)]
mod deed;
#[cfg(test)]
mod end_tests;
#[cfg(test)]
mod log;
#[cfg(test)]
mod one_worker;
#[cfg(test)]
mod parting_tests;
#[cfg(test)]
mod plan;
#[cfg(test)]
mod rings;
#[cfg(test)]
mod staff;
#[cfg(test)]
mod stage;
#[cfg(test)]
mod tally;
#[cfg(test)]
mod telling;
#[cfg(test)]
mod turn_tests;
