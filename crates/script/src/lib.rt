//! What a script says: its lines, and what they ask for together.
#![tactic(auto)]

mod coming;
mod connection;
mod final_status;
mod handler;
mod line;
mod listening;
mod pieces;
mod place;
mod policy;
mod reading;
mod script;
mod script_listener;
mod setting;
mod steps;
mod text;

pub use coming::Coming;
pub use connection::Connection;
pub use final_status::FinalStatus;
pub use handler::Handler;
pub use line::{Line, read_line};
pub use listening::into_listeners;
pub use place::PlaceLine;
pub use policy::{PolicyLine, ScriptRule, build_policy, read_policy_line};
pub use reading::{MAX_SCRIPT, Reading, read_script};
pub use script::Script;
pub use script_listener::ScriptListener;
pub use setting::{SettingLine, Settings};
pub use text::{PlainText, number_in, number_to};
