/// How many maps stand over the service.
#[derive(Clone, Copy)]
pub enum Depth {
    One,
    Five,
    Twenty,
}

impl Depth {
    /// The depth of a word.
    pub fn of_word(word: &str) -> Option<Depth> {
        match word {
            "1" => Some(Depth::One),
            "5" => Some(Depth::Five),
            "20" => Some(Depth::Twenty),
            _ => None,
        }
    }
}
