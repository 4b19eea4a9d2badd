//! The words of the command line.
use crate::depth::Depth;

/// How much is measured.
#[derive(Clone, Copy)]
pub struct Size {
    /// How many maps stand over the service.
    pub depth: Depth,
    /// How many calls are made.
    pub calls: u32,
}

impl Size {
    /// A depth and a number. None where the words are no such words.
    pub fn of_words(words: &[String]) -> Option<Size> {
        let [depth, calls] = words else {
            return None;
        };
        let depth = Depth::of_word(depth)?;
        match calls.parse::<u32>() {
            Ok(calls) => Some(Size { depth, calls }),
            Err(_) => None,
        }
    }
}
