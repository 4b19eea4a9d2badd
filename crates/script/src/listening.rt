//! The listeners in memory that a script asks for.
ghost use Rattle.std.specs.Prelude.{◌≡◌, length, IfOk};
ghost use Rattle.script.specs.Offering.{AllOffer};

use crate::script_listener::ScriptListener;
use server_run::{MemoryLink, MemoryListener};
use service_core::Link;
use std::alloc::{AllocError, Global};

/// A listener in memory for each, in order.
pub fn into_listeners(
    alloc: Global,
    listeners: Vec<ScriptListener>,
) -> Result<Vec<MemoryListener>, AllocError>
    ensures offer { IfOk result (λ made. AllOffer ⟦<MemoryLink as Link>⟧ listeners.items made.items) }
    ensures as_many { IfOk result (λ made. length made.items ≡ length listeners.items) }
{
    let mut made = Vec::with_capacity(alloc, listeners.len())?;
    for listener in listeners {
        made.push_reserved(listener.into_listener(alloc)?);
    }
    Ok(made)
}
