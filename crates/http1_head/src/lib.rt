//! The head of a request: where it ends, what it is, how its body is framed, and what it asks of the connection.
#![tactic(auto)]

mod asks;
mod fields;
mod framing;
mod head;
mod next;
mod options;
mod read_head;
mod scan;

pub use framing::{Framing, framing_of};
pub use next::{BodyFraming, NextHead, head_at_front, next_head};
pub use read_head::ReadHead;
pub use scan::{HeadSize, empty_line, empty_lines, head_size_from};
