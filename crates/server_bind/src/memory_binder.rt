ghost use Rattle.std.specs.Prelude.{◌≡◌, ◌∷◌, Some, All, IfOk, OnOk, OnErr};
ghost use Rattle.service_core.specs.Counts.{risen};
ghost use Rattle.server_bind.specs.Stock.{IsSteady, listeners_in};

use crate::{BindFailed, Binder};
use server_run::{Host, Listener, MemoryLink, MemoryListener};
use service_core::Link;
use std::alloc::Global;
use std::collections::VecDeque;

/// A binder in memory. Each bind, at whatever address, takes the first entry of a list: a listener, or a refusal.
#[derive(Drop)]
pub struct MemoryBinder {
    entries: VecDeque<Option<MemoryListener>>,
    refusals: u64,
    ghost steady: { All (IsSteady ⟦<MemoryListener as Listener>⟧.left ⟦<MemoryListener as Listener>⟧.rest ⟦<MemoryLink as Link>⟧.identity) (listeners_in entries.items) },
}

impl MemoryBinder {
    /// It hands out the listeners of these entries, which never fail, and neither do their links. A `None` is a refusal, and so
    /// is every bind behind the last entry.
    pub fn new(_alloc: Global, stock: Vec<Option<MemoryListener>>) -> MemoryBinder
        requires { All (IsSteady ⟦<MemoryListener as Listener>⟧.left ⟦<MemoryListener as Listener>⟧.rest ⟦<MemoryLink as Link>⟧.identity) (listeners_in stock.items) }
        ensures stock { ⟦<MemoryBinder as Binder>⟧.stock result ≡ Some (listeners_in stock.items) }
        ensures refusals { ⟦<MemoryBinder as Binder>⟧.refusals result ≡ 0 }
    {
        MemoryBinder {
            entries: VecDeque::from_vec(stock),
            refusals: 0,
        }
    }

    // Takes the first entry.
    fn take(&mut self) -> Result<MemoryListener, BindFailed>
        ensures first { IfOk result (λ listener. listeners_in self.old.entries.items ≡ listener ∷ listeners_in self.new.entries.items) }
        ensures bound { OnOk result (self.new.refusals ≡ self.old.refusals) }
        ensures refused { OnErr result (self.new.refusals ≡ risen self.old.refusals) }
        ensures kept { OnErr result (listeners_in self.new.entries.items ≡ listeners_in self.old.entries.items) }
    {
        match self.entries.pop_front() {
            Some(Some(listener)) => Ok(listener),
            Some(None) | None => {
                self.refusals = self.refusals.saturating_add(1);
                Err(BindFailed)
            }
        }
    }
}

impl Binder for MemoryBinder {
    type Listener = MemoryListener;

    ghost stock = { λ binder. Some (listeners_in binder.entries.items) };

    ghost refusals = { λ binder. binder.refusals };

    fn tcp<Ho: Host>(&mut self, _rt: &Ho, _addr: &str) -> Result<MemoryListener, BindFailed> {
        self.take()
    }

    fn unix<Ho: Host>(&mut self, _rt: &Ho, _addr: &str) -> Result<MemoryListener, BindFailed> {
        self.take()
    }

    ghost steady = { λ binder. binder.steady };
}
