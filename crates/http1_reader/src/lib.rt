//! The steps of a connection: heads and bodies, from bytes that come in pieces.
#![tactic(auto)]

mod chunk_line;
mod decode;
mod line_feed;
mod piece;
mod reader;
mod reader_state;
mod step;

pub use reader::Reader;
pub use step::Step;
