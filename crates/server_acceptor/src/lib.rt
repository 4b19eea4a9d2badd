//! The acceptor: it asks the listeners for connections, puts each on the ring of a worker, and takes back what has ended.
#![tactic(auto)]

mod accept_turn;
mod acceptor;
mod acceptor_new;
mod asked;
mod asking;
mod commanding;
mod delivering;
mod finishing;
mod handing;
mod laws;
mod listening;
mod logging;
mod noting;
mod parting;
mod placed;
mod placing;
mod room;
mod step;
mod stop;
mod stopping;
mod telling;
mod turning;

pub use accept_turn::AcceptTurn;
pub use acceptor::Acceptor;
pub use laws::turns_compose;
pub use placed::Placed;
pub use room::Room;
pub use stop::Stop;
