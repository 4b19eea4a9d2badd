//! A binder that tells on standard error where it listens, or why it does not.
ghost use Rattle.std.specs.Prelude.{None};

use server_bind::{BindFailed, Binder};
use server_run::Host;
use server_sockets::{MioBinder, SocketListener};

/// Binds sockets, and tells of each on standard error. That this can't be written changes nothing.
#[derive(Drop)]
pub(crate) struct Announcing {
    binder: MioBinder,
}

impl Announcing {
    /// What it tells of is bound by this binder.
    pub(crate) fn new(binder: MioBinder) -> Announcing {
        Announcing { binder }
    }

    // Tells at which address and port it listens.
    fn tell_port<R: Eprint>(&self, rt: &R) {
        if let Some(bound) = self.binder.local_addr() {
            let _ = eprintln!(rt; "dongurapi: listening at {bound}");
        }
    }

    fn tell_refusal<R: Eprint>(&self, rt: &R, addr: &str) {
        if let Some(error) = self.binder.last_error() {
            let _ = eprintln!(rt; "dongurapi: cannot listen at {addr}: {error}");
        }
    }
}

impl Binder for Announcing {
    type Listener = SocketListener;

    ghost stock = { λ _. None };

    ghost refusals = { λ announcing. ⟦<MioBinder as Binder>⟧.refusals announcing.binder };

    fn tcp<Ho: Host>(&mut self, rt: &Ho, addr: &str) -> Result<SocketListener, BindFailed> {
        let bound = self.binder.tcp(rt, addr);
        match &bound {
            Ok(_) => self.tell_port(rt),
            Err(_) => self.tell_refusal(rt, addr),
        }
        bound
    }

    fn unix<Ho: Host>(&mut self, rt: &Ho, addr: &str) -> Result<SocketListener, BindFailed> {
        let bound = self.binder.unix(rt, addr);
        match &bound {
            Ok(_) => {
                let _ = eprintln!(rt; "dongurapi: listening at {addr}");
            }
            Err(_) => self.tell_refusal(rt, addr),
        }
        bound
    }

    ghost steady = { λ _. tt };
}
