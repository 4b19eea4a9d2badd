/// What serves the connections.
#[derive(Clone, Copy)]
pub enum Kind {
    /// A service that reads once and is done.
    Tiny,
    /// The service of HTTP connections, with a handler under the policy that allows everything.
    Http,
}

impl Kind {
    /// None where the word is no kind.
    pub fn of_word(word: &str) -> Option<Kind> {
        match word {
            "tiny" => Some(Kind::Tiny),
            "http" => Some(Kind::Http),
            _ => None,
        }
    }
}
