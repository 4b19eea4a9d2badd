//! The job of a worker: what its thread does from its first turn to the end, and what it hands over.
#![tactic(auto)]

mod departure;
mod giving_up;
mod laws;
mod news;
mod worker_job;
mod working;

pub use departure::Departure;
pub use laws::{a_line_to_a_worker_can_be_joined, what_is_handed_over_is_accounted_for};
pub use worker_job::WorkerJob;
