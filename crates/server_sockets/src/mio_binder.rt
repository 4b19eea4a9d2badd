ghost use Rattle.std.specs.Prelude.{◌≡◌, ◌≢◌, [], None, Some, Ok, Err, IfOk, IfErr, IsErr, OnOk, OnErr};
ghost use Rattle.server_run.specs.Listener.{IsTakenFrom};
ghost use Rattle.server_sockets.specs.Binding.{IsNoAddress, place, reason};
ghost use Rattle.server_sockets.specs.declared.socket_bind_error.SocketBindError.TheVariants.{NoAddress};
ghost use Rattle.service_core.specs.Counts.{Rose, risen};

use crate::{SocketBindError, SocketListener};
use mio::net::{TcpListener, UnixListener};
use server_bind::{BindFailed, Binder};
use server_reactor::Reactor;
use server_run::Host;
use std::fs::Files;
use std::net::{Net, SocketAddr};
use std::sync::Arc;

/// Binds sockets (`actix_server::ServerBuilder::bind` and `bind_uds`). It keeps why it last refused, and where it listens.
#[derive(Drop)]
pub struct MioBinder {
    refusals: u64,
    last_error: Option<SocketBindError>,
    local_addr: Option<SocketAddr>,
    reactor: Option<Arc<Reactor>>,
}

impl MioBinder {
    /// It has bound and refused nothing. Its listeners and their links ask the system at each call.
    pub fn new() -> MioBinder
        ensures refusals { ⟦<MioBinder as Binder>⟧.refusals result ≡ 0 }
        ensures no_error { reason result ≡ None }
        ensures nowhere { place result ≡ None }
    {
        MioBinder::with(None)
    }

    /// It has bound and refused nothing. The reactor tells its listeners and their links what has come.
    pub fn over(reactor: Arc<Reactor>) -> MioBinder
        ensures refusals { ⟦<MioBinder as Binder>⟧.refusals result ≡ 0 }
        ensures no_error { reason result ≡ None }
        ensures nowhere { place result ≡ None }
    {
        MioBinder::with(Some(reactor))
    }

    fn with(reactor: Option<Arc<Reactor>>) -> MioBinder
        ensures refusals { ⟦<MioBinder as Binder>⟧.refusals result ≡ 0 }
        ensures no_error { reason result ≡ None }
        ensures nowhere { place result ≡ None }
    {
        MioBinder {
            refusals: 0,
            last_error: None,
            local_addr: None,
            reactor,
        }
    }

    /// Why it refused an address the last time, if it ever did.
    pub fn last_error(&self) -> Option<SocketBindError>
        ensures { result ≡ reason self.now }
    {
        self.last_error
    }

    /// Where the TCP listener listens that it bound last. So the port is known where the system chose it, for port 0.
    pub fn local_addr(&self) -> Option<SocketAddr>
        ensures { result ≡ place self.now }
    {
        self.local_addr
    }

    /// How often it refused an address. At u64's greatest it stays.
    pub fn refusals(&self) -> u64
        ensures { result ≡ ⟦<MioBinder as Binder>⟧.refusals self.now }
    {
        self.refusals
    }

    // The listener that was bound, of which the reactor tells from now on, where there is one.
    fn watched(
        &self,
        bound: Result<SocketListener, SocketBindError>,
    ) -> Result<SocketListener, SocketBindError>
        ensures { IfErr bound (λ error. result ≡ Err error) }
    {
        let listener = match bound {
            Ok(listener) => listener,
            Err(error) => return Err(error),
        };
        let Some(reactor) = &self.reactor else {
            return Ok(listener);
        };
        let Ok(reactor) = Arc::try_clone(reactor) else {
            return Ok(listener);
        };
        match listener.over(reactor) {
            Ok(listener) => Ok(listener),
            Err(error) => Err(SocketBindError::System(error)),
        }
    }

    // Puts down what became of a bind.
    fn note(
        &mut self,
        bound: Result<SocketListener, SocketBindError>,
    ) -> Result<SocketListener, BindFailed>
        ensures bound { OnOk result (self.new.refusals ≡ self.old.refusals) }
        ensures refused { OnErr result (self.new.refusals ≡ risen self.old.refusals) }
        ensures told { IfErr bound (λ error. (IsErr result) × (reason self.new ≡ Some error)) }
        ensures given { IfOk bound (λ listener. result ≡ Ok listener) }
    {
        match bound {
            Ok(listener) => Ok(listener),
            Err(error) => {
                self.refusals = self.refusals.saturating_add(1);
                self.last_error = Some(error);
                Err(BindFailed)
            }
        }
    }
}

// With `SO_REUSEADDR`, and the longest queue that the system allows.
fn bind_tcp<N: Net>(net: &N, addr: &str) -> Result<SocketListener, SocketBindError>
    ensures { IsNoAddress addr.now → result ≡ Err NoAddress }
{
    let Ok(addr) = addr.parse::<SocketAddr>() else {
        return Err(SocketBindError::NoAddress);
    };
    match TcpListener::bind(net, addr) {
        Ok(listener) => Ok(SocketListener::tcp(listener)),
        Err(error) => Err(SocketBindError::System(error)),
    }
}

// A file at the path stays, and is a reason to refuse it.
fn bind_uds<N: Files + Net>(rt: &N, path: &str) -> Result<SocketListener, SocketBindError>
    ensures { path.now ≡ [] → result ≡ Err NoAddress }
{
    if path.is_empty() {
        return Err(SocketBindError::NoAddress);
    }
    match UnixListener::bind(rt, path) {
        Ok(listener) => Ok(SocketListener::uds(listener)),
        Err(error) => Err(SocketBindError::System(error)),
    }
}

impl Binder for MioBinder {
    type Listener = SocketListener;

    ghost stock = { λ _. None };

    ghost refusals = { λ binder. binder.refusals };

    fn tcp<Ho: Host>(&mut self, rt: &Ho, addr: &str) -> Result<SocketListener, BindFailed>
        ensures first { IfOk result (λ listener. IsTakenFrom (⟦<MioBinder as Binder>⟧.stock self.old) listener (⟦<MioBinder as Binder>⟧.stock self.new)) }
        ensures bound { OnOk result (⟦<MioBinder as Binder>⟧.refusals self.new ≡ ⟦<MioBinder as Binder>⟧.refusals self.old) }
        ensures refused { OnErr result (Rose (⟦<MioBinder as Binder>⟧.refusals self.old) (⟦<MioBinder as Binder>⟧.refusals self.new)) }
        ensures kept { OnErr result (⟦<MioBinder as Binder>⟧.stock self.new ≡ ⟦<MioBinder as Binder>⟧.stock self.old) }
        ensures reason { OnErr result (reason self.new ≢ None) }
        ensures no_address { IsNoAddress addr.now → (IsErr result) × (reason self.new ≡ Some NoAddress) }
    {
        let listener = self.note(self.watched(bind_tcp(rt, addr)))?;
        self.local_addr = listener.local_addr();
        Ok(listener)
    }

    fn unix<Ho: Host>(&mut self, rt: &Ho, addr: &str) -> Result<SocketListener, BindFailed>
        ensures first { IfOk result (λ listener. IsTakenFrom (⟦<MioBinder as Binder>⟧.stock self.old) listener (⟦<MioBinder as Binder>⟧.stock self.new)) }
        ensures bound { OnOk result (⟦<MioBinder as Binder>⟧.refusals self.new ≡ ⟦<MioBinder as Binder>⟧.refusals self.old) }
        ensures refused { OnErr result (Rose (⟦<MioBinder as Binder>⟧.refusals self.old) (⟦<MioBinder as Binder>⟧.refusals self.new)) }
        ensures kept { OnErr result (⟦<MioBinder as Binder>⟧.stock self.new ≡ ⟦<MioBinder as Binder>⟧.stock self.old) }
        ensures reason { OnErr result (reason self.new ≢ None) }
        ensures no_path { addr.now ≡ [] → (IsErr result) × (reason self.new ≡ Some NoAddress) }
    {
        self.note(self.watched(bind_uds(rt, addr)))
    }

    ghost steady = { λ _. tt };
}
