//! A worker: it takes connections from its ring, makes the services of its factory, serves each connection, and hands it back.
#![tactic(auto)]

mod admitting;
mod beginning;
mod checked;
mod connections;
mod fault;
mod finished;
mod laws;
mod leaving;
mod live;
mod making;
mod polling;
mod posting;
mod readiness;
mod services;
mod slot;
mod stopping;
mod taking;
mod turned;
mod turning;
mod worker;
mod worker_parts;

pub use laws::a_service_changes_at_most_twice_a_turn;
pub use live::SLOTS;
pub use turned::Turned;
pub use worker::Worker;
pub use worker_parts::WorkerParts;
