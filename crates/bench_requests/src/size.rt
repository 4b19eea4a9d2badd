//! The words of the command line.
use crate::kind::Kind;

/// How much is measured.
#[derive(Clone, Copy)]
pub struct Size {
    /// What each request is.
    pub kind: Kind,
    /// How many requests come at once.
    pub flight: usize,
    /// How many times so many come.
    pub times: u64,
}

impl Size {
    /// A kind and two numbers. None where the words are no such words.
    pub fn of_words(words: &[String]) -> Option<Size> {
        let [kind, flight, times] = words else {
            return None;
        };
        let kind = Kind::of_word(kind)?;
        match (flight.parse::<usize>(), times.parse::<u64>()) {
            (Ok(flight), Ok(times)) => Some(Size {
                kind,
                flight,
                times,
            }),
            _ => None,
        }
    }
}
