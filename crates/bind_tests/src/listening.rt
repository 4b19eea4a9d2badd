//! Listeners and binders in memory, and what a listener answers.
ghost use Rattle.std.specs.Prelude.{IfOk};
ghost use Rattle.server_bind.specs.Stock.{IsSteady, NeverFails};

use server_bind::MemoryBinder;
use server_run::{Accepted, Listener, ListenerStep, MemoryLink, MemoryListener};
use service_core::{Link, Peer};
use std::alloc::{AllocError, Global};

/// What a listener answered, with the name of its link.
#[derive(Clone, Copy, PartialEq, Eq)]
pub(crate) enum Told {
    /// A connection of this name.
    Got(u64),
    /// None had come.
    NotYet,
    /// One connection failed.
    Skipped,
    /// The listener failed.
    Failed,
    /// None comes any more.
    Ended,
}

/// What the listener answers next.
pub(crate) fn next<Li: Listener<Link = MemoryLink>>(listener: &mut Li) -> Told {
    match listener.accept() {
        Accepted::Got(link) => Told::Got(link.name()),
        Accepted::NotYet => Told::NotYet,
        Accepted::Skipped => Told::Skipped,
        Accepted::Failed => Told::Failed,
        Accepted::Ended => Told::Ended,
    }
}

/// A link by its name, which gives nothing.
pub(crate) fn link_named(alloc: Global, name: u64) -> MemoryLink
    ensures { NeverFails (⟦<MemoryLink as Link>⟧.identity result) }
{
    MemoryLink::new(alloc, name, Peer::Unknown, Vec::new(alloc), Vec::new(alloc))
}

/// A listener of one connection, of this name.
pub(crate) fn one_connection(alloc: Global, name: u64) -> Result<MemoryListener, AllocError>
    ensures { IfOk result (IsSteady ⟦<MemoryListener as Listener>⟧.left ⟦<MemoryListener as Listener>⟧.rest ⟦<MemoryLink as Link>⟧.identity) }
{
    let steps = vec![in alloc; ListenerStep::Give(link_named(alloc, name))]?;
    Ok(MemoryListener::new(alloc, steps))
}

/// A binder of a listener of the connection 1, of a refusal, and of a listener of the connection 2.
pub(crate) fn two_listeners(alloc: Global) -> Result<MemoryBinder, AllocError> {
    let first = one_connection(alloc, 1)?;
    let second = one_connection(alloc, 2)?;
    let stock = vec![in alloc; Some(first), None, Some(second)]?;
    Ok(MemoryBinder::new(alloc, stock))
}
