//! The edge of the server: real threads, what they wait for, and the system's clock.
#![tactic(auto)]

mod reactor_host;
mod script_spawner;
mod seats;
mod system_clock;
mod thread_spawner;

pub use reactor_host::ReactorHost;
pub use script_spawner::ScriptSpawner;
pub use system_clock::SystemClock;
pub use thread_spawner::ThreadSpawner;
