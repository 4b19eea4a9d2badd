//! Tests of `server`: whole runs in which workers end by faults of their services, and are replaced or retired.
#![tactic(auto)]

#[cfg(test)]
mod awaited;
#[cfg(test)]
mod draws;
#[cfg(test)]
mod ending;
#[cfg(test)]
mod ending_tests;
#[cfg(test)]
mod errs;
#[cfg(test)]
mod faults;
#[cfg(test)]
mod faulty;
#[cfg(test)]
mod maker;
#[cfg(test)]
mod replacing_tests;
#[cfg(test)]
mod running;
#[cfg(test)]
mod serving;
#[cfg(test)]
mod soak_tests;
#[cfg(test)]
mod tally;
#[cfg(test)]
mod telling;
