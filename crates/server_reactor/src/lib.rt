//! Which sockets have news, and how each thread waits for news of its own, over `mio`.
#![tactic(auto)]

mod arrivals;
mod news;
mod place;
mod reactor;
mod watch;

pub use arrivals::Arrivals;
pub use reactor::Reactor;
pub use watch::Watch;
