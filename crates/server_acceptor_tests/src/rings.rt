use rtrb::{Consumer, Producer, RingBuffer};
use std::alloc::{AllocError, Global};

/// The two ends of some rings.
#[derive(Drop)]
pub(crate) struct Rings<T> {
    pub(crate) into: Vec<Producer<T>>,
    pub(crate) out: Vec<Consumer<T>>,
}

impl<T: Drop> Rings<T> {
    // One ring more.
    fn add(&mut self, alloc: Global, places: usize) -> Result<(), AllocError> {
        let (into, out) = RingBuffer::new(alloc, places)?;
        self.into.push(into)?;
        self.out.push(out)?;
        Ok(())
    }

    /// So many rings of so many places.
    pub(crate) fn new(alloc: Global, count: usize, places: usize) -> Result<Rings<T>, AllocError> {
        let mut rings = Rings {
            into: Vec::new(alloc),
            out: Vec::new(alloc),
        };
        for _ in 0..count {
            rings.add(alloc, places)?;
        }
        Ok(rings)
    }
}
