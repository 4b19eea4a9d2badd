//! The words of the command line.
use http1_plain::Limits;

/// How much is read.
#[derive(Clone, Copy)]
pub struct Size {
    /// The limits of heads and bodies.
    pub limits: Limits,
    /// How many bytes come at once.
    pub piece: usize,
}

impl Size {
    /// Three numbers above 0, or the nearest that there are. None where the words are no such words.
    pub fn of_words(words: &[String]) -> Option<Size> {
        let [head, body, piece] = words else {
            return None;
        };
        match (
            head.parse::<usize>(),
            body.parse::<usize>(),
            piece.parse::<usize>(),
        ) {
            (Ok(head), Ok(body), Ok(piece)) => Some(Size {
                limits: Limits::new(head.clamp(1, 65_535), body.clamp(1, 16_777_216)),
                piece: piece.max(1),
            }),
            _ => None,
        }
    }
}
