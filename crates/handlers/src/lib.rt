//! What answers the requests, the expectations and the upgrades of a script.
#![tactic(auto)]

mod echo;
mod echo_upgrade;
mod expectation_fault;
mod handler;
mod handler_fault;
mod handler_service;
mod laws;
mod read_more;
mod script_expect;
mod turn;
mod write_back;

pub use echo::Echo;
pub use echo_upgrade::EchoUpgrade;
pub use expectation_fault::ExpectationFault;
pub use handler::answer;
pub use handler_fault::HandlerFault;
pub use handler_service::HandlerService;
pub use laws::{a_done_echo_is_whole, echo_upgrade_hands_back};
pub use script_expect::ScriptExpect;
