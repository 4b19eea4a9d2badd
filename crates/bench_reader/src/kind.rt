/// What is read.
#[derive(Clone, Copy)]
pub enum Kind {
    /// A GET of 60 bytes with two headers.
    Small,
    /// A browser's GET with thirteen headers.
    Browser,
    /// A GET with six short headers.
    Few,
    /// The same with 96.
    Many,
    /// A head of 32,000 bytes with one long header.
    Long,
    /// A body of 1,000,000 bytes by its length.
    Sized,
    /// The same in chunks of one byte.
    Ones,
    /// The same in chunks of 100 bytes.
    Hundreds,
}

impl Kind {
    /// None where the word is no kind.
    pub fn of_word(word: &str) -> Option<Kind> {
        match word {
            "small" => Some(Kind::Small),
            "browser" => Some(Kind::Browser),
            "few" => Some(Kind::Few),
            "many" => Some(Kind::Many),
            "long" => Some(Kind::Long),
            "sized" => Some(Kind::Sized),
            "ones" => Some(Kind::Ones),
            "hundreds" => Some(Kind::Hundreds),
            _ => None,
        }
    }
}
