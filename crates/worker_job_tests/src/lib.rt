//! Tests of `worker_job`: jobs of workers on real threads, from their start to their join.
#![tactic(auto)]

#[cfg(test)]
mod books;
#[cfg(test)]
mod closer;
#[cfg(test)]
mod closing;
#[cfg(test)]
mod ending;
#[cfg(test)]
mod finding;
#[cfg(test)]
mod job_tests;
#[cfg(test)]
mod maker;
#[cfg(test)]
mod plan;
#[cfg(test)]
mod shift;
#[cfg(test)]
mod side;
#[cfg(test)]
mod tag;
