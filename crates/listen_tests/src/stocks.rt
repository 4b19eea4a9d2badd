//! Binders in memory: one with a listener, one with a refusal, and one with nothing.
ghost use Rattle.std.specs.Prelude.{IfOk};
ghost use Rattle.server_bind.specs.Stock.{IsSteady, NeverFails};

use server_bind::MemoryBinder;
use server_run::{Listener, ListenerStep, MemoryLink, MemoryListener, ReadStep};
use service_core::{Link, Octets, Peer};
use std::alloc::{AllocError, Global};

// A link that holds one request.
fn link(alloc: Global, name: u64) -> Result<MemoryLink, AllocError>
    ensures { IfOk result (λ link. NeverFails (⟦<MemoryLink as Link>⟧.identity link)) }
{
    let request = Octets::of(alloc, b"GET / HTTP/1.1\r\nHost: a\r\n\r\n")?;
    let reads = vec![in alloc; ReadStep::Give(request)]?;
    Ok(MemoryLink::new(alloc, name, Peer::Local, reads, Vec::new(alloc)))
}

// A listener that gives three connections, and then ends.
fn listener(alloc: Global) -> Result<MemoryListener, AllocError>
    ensures { IfOk result (IsSteady ⟦<MemoryListener as Listener>⟧.left ⟦<MemoryListener as Listener>⟧.rest ⟦<MemoryLink as Link>⟧.identity) }
{
    let steps = vec![in alloc;
        ListenerStep::Give(link(alloc, 0)?),
        ListenerStep::Give(link(alloc, 1)?),
        ListenerStep::Give(link(alloc, 2)?),
    ]?;
    Ok(MemoryListener::new(alloc, steps))
}

/// A binder that hands out a listener of three connections, of one request each.
pub(crate) fn of_three(alloc: Global) -> Result<MemoryBinder, AllocError> {
    let stock = vec![in alloc; Some(listener(alloc)?)]?;
    Ok(MemoryBinder::new(alloc, stock))
}

/// A binder that refuses once, and would then hand out such a listener.
pub(crate) fn refusing(alloc: Global) -> Result<MemoryBinder, AllocError> {
    let stock = vec![in alloc; None, Some(listener(alloc)?)]?;
    Ok(MemoryBinder::new(alloc, stock))
}

/// A binder that has nothing to hand out.
pub(crate) fn empty(alloc: Global) -> Result<MemoryBinder, AllocError> {
    Ok(MemoryBinder::new(alloc, Vec::new(alloc)))
}
