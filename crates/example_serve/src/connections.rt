//! Connections in memory.
ghost use Rattle.std.specs.Prelude.{◌≤◌, IfOk, vec_len};

use server_run::{ListenerStep, MemoryLink, MemoryListener, ReadStep};
use service_core::{Octets, Peer};
use std::alloc::{AllocError, Global};

// A line, whole.
fn in_one_piece(alloc: Global) -> Result<MemoryLink, AllocError> {
    let line = Octets::of(alloc, b"Ada\n")?;
    let reads = vec![in alloc; ReadStep::Give(line)]?;
    Ok(MemoryLink::new(alloc, 0, Peer::Local, reads, Vec::new(alloc)))
}

// A line that is cut, and comes after a wait.
fn in_two_pieces(alloc: Global) -> Result<MemoryLink, AllocError> {
    let reads = vec![in alloc;
        ReadStep::Give(Octets::of(alloc, b"Blaise Pas")?),
        ReadStep::NotYet,
        ReadStep::Give(Octets::of(alloc, b"cal\n")?),
    ]?;
    Ok(MemoryLink::new(alloc, 1, Peer::Local, reads, Vec::new(alloc)))
}

// A peer that is gone before its line is whole.
fn broken_off(alloc: Global) -> Result<MemoryLink, AllocError> {
    let reads = vec![in alloc; ReadStep::Give(Octets::of(alloc, b"Char")?), ReadStep::Fail]?;
    Ok(MemoryLink::new(alloc, 2, Peer::Local, reads, Vec::new(alloc)))
}

/// A listener that gives two connections, and one that gives a third after a wait. Then they end.
pub fn listeners(alloc: Global) -> Result<Vec<MemoryListener>, AllocError>
    ensures few { IfOk result (λ listeners. vec_len listeners ≤ 64) }
{
    let first = vec![in alloc;
        ListenerStep::Give(in_one_piece(alloc)?),
        ListenerStep::Give(broken_off(alloc)?),
    ]?;
    let second = vec![in alloc;
        ListenerStep::NotYet,
        ListenerStep::Give(in_two_pieces(alloc)?),
    ]?;
    let listeners = vec![in alloc;
        MemoryListener::new(alloc, first),
        MemoryListener::new(alloc, second),
    ]?;
    Ok(listeners)
}
