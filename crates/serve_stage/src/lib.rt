//! What whole runs of a server are tested on: its plan, its listeners and services, what it is told, and what became of it, in words.
#![tactic(auto)]

mod answer;
mod begun;
mod countdown;
mod end_after;
mod entries;
mod gated;
mod links;
mod log;
mod plan;
mod serving;
mod stage;

pub use answer::{Answer, listener_of};
pub use begun::Begun;
pub use countdown::Countdown;
pub use end_after::{AfterPolls, EndAfter};
pub use entries::{are_numbered, count_of, entry_at};
pub use gated::{Gated, Told};
pub use links::{that_ends, that_hangs, that_waits};
pub use log::Log;
pub use plan::{PLAIN, Plan};
pub use serving::{served, served_by, served_in_order, served_when_told};
pub use stage::Stage;
