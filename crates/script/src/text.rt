//! The texts in a line: escapes, numbers, peers, and plain text.

mod decimal;
mod escapes;
mod peer_text;
mod plain_text;

pub(crate) use decimal::number_behind;
pub use decimal::{number_in, number_to};
pub(crate) use escapes::unescaped;
pub(crate) use peer_text::read_peer;
pub use plain_text::PlainText;
