//! What a queue of tasks asks for.
use std::alloc::{Alloc, Global};
use std::io;
use std::random::RandomSource;

// Memory, and a number in place of random bytes: the queue takes it as its name.
#[derive(Clone, Copy)]
pub(crate) struct Names {
    pub(crate) alloc: Global,
    pub(crate) number: u64,
}

impl Alloc for Names {
    type A = Global;

    fn alloc(&self) -> Global {
        self.alloc
    }
}

impl RandomSource for Names {
    fn fill_bytes(&self, buf: &mut [u8]) -> io::Result<()> {
        for (byte, from) in buf.iter_mut().zip(self.number.to_ne_bytes()) {
            *byte = from;
        }
        Ok(())
    }
}
