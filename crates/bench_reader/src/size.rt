//! The words of the command line.
use crate::kind::Kind;

/// How much is measured.
#[derive(Clone, Copy)]
pub struct Size {
    /// What is read.
    pub kind: Kind,
    /// In pieces of so many bytes.
    pub piece: usize,
    /// So many times.
    pub times: u64,
}

impl Size {
    /// A kind and two numbers. None where the words are no such words.
    pub fn of_words(words: &[String]) -> Option<Size> {
        let [kind, piece, times] = words else {
            return None;
        };
        let kind = Kind::of_word(kind)?;
        match (piece.parse::<usize>(), times.parse::<u64>()) {
            (Ok(piece), Ok(times)) => Some(Size { kind, piece, times }),
            _ => None,
        }
    }
}
