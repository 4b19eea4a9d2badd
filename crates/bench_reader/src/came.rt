/// What came.
#[derive(Clone, Copy)]
pub struct Came {
    pub heads: u64,
    pub bodies: u64,
    pub refusals: u64,
}

impl Came {
    /// Nothing.
    pub fn nothing() -> Came {
        Came {
            heads: 0,
            bodies: 0,
            refusals: 0,
        }
    }
}
