//! The links of a run.
use server_run::{MemoryLink, ReadStep};
use service_core::Peer;
use std::alloc::{AllocError, Global};

/// A link that gives nothing.
pub fn that_ends(alloc: Global, name: u64) -> MemoryLink {
    MemoryLink::new(alloc, name, Peer::Unknown, Vec::new(alloc), Vec::new(alloc))
}

/// A link that gives nothing, and not at once.
pub fn that_waits(alloc: Global, name: u64) -> Result<MemoryLink, AllocError> {
    let reads = vec![in alloc; ReadStep::NotYet, ReadStep::NotYet, ReadStep::NotYet]?;
    Ok(MemoryLink::new(alloc, name, Peer::Unknown, reads, Vec::new(alloc)))
}

/// A link that never answers a read.
pub fn that_hangs(alloc: Global, name: u64) -> Result<MemoryLink, AllocError> {
    let reads = vec![in alloc; ReadStep::Never]?;
    Ok(MemoryLink::new(alloc, name, Peer::Unknown, reads, Vec::new(alloc)))
}
