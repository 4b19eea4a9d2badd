//! A binder that tells its addresses apart.
ghost use Rattle.std.specs.Prelude.{◌≡◌, None, OnOk, OnErr};
ghost use Rattle.service_core.specs.Counts.{Rose};

use server_bind::{BindFailed, Binder};
use server_run::{Host, MemoryListener};

/// Has one listener at the TCP address `127.0.0.1:8080`, and one at the path `/run/app.sock`.
#[derive(Drop)]
pub(crate) struct TwoAddresses {
    at_port: Option<MemoryListener>,
    at_path: Option<MemoryListener>,
    refusals: u64,
}

impl TwoAddresses {
    /// None was handed out.
    pub(crate) fn new(at_port: MemoryListener, at_path: MemoryListener) -> TwoAddresses {
        TwoAddresses {
            at_port: Some(at_port),
            at_path: Some(at_path),
            refusals: 0,
        }
    }
}

// The listener, or a refusal that is counted.
fn bound(listener: Option<MemoryListener>, refusals: &mut u64) -> Result<MemoryListener, BindFailed>
    ensures bound { OnOk result (refusals.new ≡ refusals.old) }
    ensures refused { OnErr result (Rose refusals.old refusals.new) }
{
    match listener {
        Some(listener) => Ok(listener),
        None => {
            *refusals = refusals.saturating_add(1);
            Err(BindFailed)
        }
    }
}

// The listener, where these are one address.
fn at(listener: &mut Option<MemoryListener>, asked: &str, address: &str) -> Option<MemoryListener> {
    if asked == address {
        listener.take()
    } else {
        None
    }
}

impl Binder for TwoAddresses {
    type Listener = MemoryListener;

    ghost stock = { λ _. None };

    ghost refusals = { λ binder. binder.refusals };

    fn tcp<Ho: Host>(&mut self, _rt: &Ho, addr: &str) -> Result<MemoryListener, BindFailed> {
        let listener = at(&mut self.at_port, addr, "127.0.0.1:8080");
        bound(listener, &mut self.refusals)
    }

    fn unix<Ho: Host>(&mut self, _rt: &Ho, addr: &str) -> Result<MemoryListener, BindFailed> {
        let listener = at(&mut self.at_path, addr, "/run/app.sock");
        bound(listener, &mut self.refusals)
    }

    ghost steady = { λ _. tt };
}
