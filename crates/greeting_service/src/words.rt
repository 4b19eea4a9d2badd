/// What a peer is told before the name that it sent.
#[derive(Clone, Copy)]
pub enum Words {
    /// To one who comes.
    Hello,
    /// To one who goes.
    Goodbye,
}

impl Words {
    /// The words.
    pub fn as_bytes(self) -> &'static [u8] {
        match self {
            Words::Hello => b"Hello, ",
            Words::Goodbye => b"Goodbye, ",
        }
    }
}
