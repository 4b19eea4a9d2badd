//! The text of a report, and of the peers in it.
#![tactic(auto)]

mod entries;
mod hex;
mod peer_words;
mod report;
mod summary;

pub use peer_words::peer_text;
pub use report::report_text;
pub use summary::{short_summary_text, summary_text};
