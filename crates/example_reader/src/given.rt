//! What stands on standard input.
use crate::failure::Failure;
use service_core::Octets;
use std::alloc::Global;
use std::io::Read;

const MOST_READS: usize = 4096;

/// The bytes of standard input, to its end or after so many reads.
pub fn given_bytes<R: Input>(rt: &R, alloc: Global) -> Result<Octets, Failure> {
    let mut bytes = Octets::new(alloc);
    let mut buf = [0; 4096];
    let mut reader = rt.reader();
    for _ in 0..MOST_READS {
        match reader.read(&mut buf) {
            Ok(0) => break,
            Ok(count) => bytes.push_all(&buf[..count])?,
            Err(_) => return Err(Failure::Read),
        }
    }
    Ok(bytes)
}
