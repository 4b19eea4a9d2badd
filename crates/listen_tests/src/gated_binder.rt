ghost use Rattle.std.specs.Prelude.{None};

use crate::gated_listener::GatedListener;
use server_bind::{BindFailed, Binder};
use server_run::Host;

/// The one address that is not refused.
const ADDRESS: &str = "127.0.0.1:8080";

/// Hands out a listener once, at a TCP address. It doesn't tell it.
#[derive(Drop)]
pub(crate) struct GatedBinder {
    listener: Option<GatedListener>,
    refusals: u64,
}

impl GatedBinder {
    /// It is to hand out this listener; with none it refuses every address.
    pub(crate) fn new(listener: Option<GatedListener>) -> GatedBinder {
        GatedBinder {
            listener,
            refusals: 0,
        }
    }

    /// How often an address was refused. At u64's greatest it stays.
    pub(crate) fn refusals(&self) -> u64 {
        self.refusals
    }
}

impl Binder for GatedBinder {
    type Listener = GatedListener;

    ghost stock = { λ _. None };

    ghost refusals = { λ binder. binder.refusals };

    fn tcp<Ho: Host>(&mut self, _rt: &Ho, addr: &str) -> Result<GatedListener, BindFailed> {
        if addr.as_bytes() != ADDRESS.as_bytes() {
            self.refusals = self.refusals.saturating_add(1);
            return Err(BindFailed);
        }
        match self.listener.take() {
            Some(listener) => Ok(listener),
            None => {
                self.refusals = self.refusals.saturating_add(1);
                Err(BindFailed)
            }
        }
    }

    fn unix<Ho: Host>(&mut self, _rt: &Ho, _addr: &str) -> Result<GatedListener, BindFailed> {
        self.refusals = self.refusals.saturating_add(1);
        Err(BindFailed)
    }

    ghost steady = { λ _. tt };
}
