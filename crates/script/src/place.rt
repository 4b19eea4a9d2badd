//! The lines of a script's listeners and their connections.

mod place_line;
mod place_text;

pub use place_line::PlaceLine;
pub(crate) use place_text::read_place_line;
