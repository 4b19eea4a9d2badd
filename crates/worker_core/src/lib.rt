//! The bookkeeping of a worker: its services, and what it does about each answer, restart and stop, with no thread and no memory.
#![tactic(auto)]

mod ready_answer;
mod service_status;
mod stop_answer;
mod worker_core;
pub mod worker_laws;
mod worker_state;

pub use ready_answer::ReadyAnswer;
pub use service_status::ServiceStatus;
pub use stop_answer::StopAnswer;
pub use worker_core::WorkerCore;
pub use worker_state::WorkerState;
