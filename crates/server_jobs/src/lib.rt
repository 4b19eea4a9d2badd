//! Jobs: work for threads of their own, what starts them, how they wait, and the rings between a job and who started it.
#![tactic(auto)]

mod bell;
mod clock;
mod handed;
mod handover;
mod job;
mod kept;
mod line;
mod names;
mod not_started;
mod note;
mod one_task;
mod parcel;
mod returning;
mod running;
mod seat;
mod spawner;
mod step_clock;
mod thread_factory;
mod waiter;
mod waiting;

pub use bell::Bell;
pub use clock::Clock;
pub use handed::Handed;
pub use handover::Handover;
pub use job::Job;
pub use line::{Joined, Line};
pub use not_started::NotStarted;
pub use note::Note;
pub use one_task::OneTask;
pub use parcel::Parcel;
pub use running::Running;
pub use seat::Seat;
pub use spawner::Spawner;
pub use step_clock::StepClock;
pub use thread_factory::ThreadFactory;
pub use waiter::Waiter;
pub use waiting::Waiting;
