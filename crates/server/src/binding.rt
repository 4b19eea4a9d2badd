//! How a server comes to its listeners: by an address that is bound, or by a listener that is there.
ghost use Rattle.std.specs.Prelude.{◌≡◌, ◌<◌, ◌++◌, ◌∷◌, [], IfOk, OnOk, OnErr, IfErr, IsErrOf, vec_len, vec_capacity};
ghost use Rattle.service_core.specs.Counts.{Rose};
ghost use Rattle.server.specs.Binding.{Binds};
ghost use Rattle.server.specs.declared.bind_error.BindError.TheVariants.{Refused, Memory};

use crate::bind_error::BindError;
use crate::builder::ServerBuilder;
use server_bind::{BindFailed, Binder};
use server_run::Host;

// Puts a listener behind the others, where there is a place for it. Returns its token.
fn put<Li>(listeners: &mut Vec<Li>, listener: Li) -> usize
    requires room { vec_len listeners.old < vec_capacity listeners.old }
    ensures token { result ≡ vec_len listeners.old }
    ensures last { listeners.new.items ≡ listeners.old.items ++ listener ∷ [] }
{
    let token = listeners.len();
    listeners.push_reserved(listener);
    token
}

impl ServerBuilder {
    /// Binds a TCP address, as `127.0.0.1:8080`, and puts the listener behind those that are there (`actix-server`'s
    /// `ServerBuilder::bind`). Returns its token.
    ///
    /// `Refused` where the binder refuses the address, and `Memory` where there is none for the listener's place: nothing was
    /// bound then. After either error the list is as it was.
    pub fn bind<Ho: Host, B: Binder>(
        &self,
        rt: &Ho,
        binder: &mut B,
        addr: &str,
        listeners: &mut Vec<B::Listener>,
    ) -> Result<usize, BindError>
        ensures token { IfOk result (λ token. token ≡ vec_len listeners.old) }
        ensures bound { OnOk result (Binds B.stock B.refusals binder.old binder.new listeners.old.items listeners.new.items) }
        ensures refused { IsErrOf result Refused → Rose (B.refusals binder.old) (B.refusals binder.new) × (B.stock binder.new ≡ B.stock binder.old) }
        ensures memory { IsErrOf result Memory → binder.new ≡ binder.old }
        ensures kept { OnErr result (listeners.new.items ≡ listeners.old.items) }
    {
        match listeners.reserve(1) {
            Ok(()) => match binder.tcp(rt, addr) {
                Ok(listener) => Ok(put(listeners, listener)),
                Err(BindFailed) => Err(BindError::Refused),
            },
            Err(_) => Err(BindError::Memory),
        }
    }

    /// Binds the path of a Unix socket, as `/run/app.sock`, and puts the listener behind those that are there
    /// (`actix-server`'s `ServerBuilder::bind_uds`). Returns its token.
    ///
    /// `Refused` where the binder refuses the path, and `Memory` where there is none for the listener's place: nothing was
    /// bound then. After either error the list is as it was.
    pub fn bind_uds<Ho: Host, B: Binder>(
        &self,
        rt: &Ho,
        binder: &mut B,
        addr: &str,
        listeners: &mut Vec<B::Listener>,
    ) -> Result<usize, BindError>
        ensures token { IfOk result (λ token. token ≡ vec_len listeners.old) }
        ensures bound { OnOk result (Binds B.stock B.refusals binder.old binder.new listeners.old.items listeners.new.items) }
        ensures refused { IsErrOf result Refused → Rose (B.refusals binder.old) (B.refusals binder.new) × (B.stock binder.new ≡ B.stock binder.old) }
        ensures memory { IsErrOf result Memory → binder.new ≡ binder.old }
        ensures kept { OnErr result (listeners.new.items ≡ listeners.old.items) }
    {
        match listeners.reserve(1) {
            Ok(()) => match binder.unix(rt, addr) {
                Ok(listener) => Ok(put(listeners, listener)),
                Err(BindFailed) => Err(BindError::Refused),
            },
            Err(_) => Err(BindError::Memory),
        }
    }

    /// Puts a listener that is there behind the others (`actix-server`'s `ServerBuilder::listen`). Returns its token.
    ///
    /// Where there is no memory for its place the listener comes back, and the list is as it was.
    pub fn listen<Li>(&self, listeners: &mut Vec<Li>, lst: Li) -> Result<usize, Li>
        ensures token { IfOk result (λ token. token ≡ vec_len listeners.old) }
        ensures last { OnOk result (listeners.new.items ≡ listeners.old.items ++ lst ∷ []) }
        ensures back { IfErr result (λ listener. listener ≡ lst) }
        ensures kept { OnErr result (listeners.new.items ≡ listeners.old.items) }
    {
        match listeners.reserve(1) {
            Ok(()) => Ok(put(listeners, lst)),
            Err(_) => Err(lst),
        }
    }

    /// Puts a listener of a Unix socket that is there behind the others (`actix-server`'s `ServerBuilder::listen_uds`). Returns
    /// its token.
    ///
    /// Where there is no memory for its place the listener comes back, and the list is as it was.
    pub fn listen_uds<Li>(&self, listeners: &mut Vec<Li>, lst: Li) -> Result<usize, Li>
        ensures token { IfOk result (λ token. token ≡ vec_len listeners.old) }
        ensures last { OnOk result (listeners.new.items ≡ listeners.old.items ++ lst ∷ []) }
        ensures back { IfErr result (λ listener. listener ≡ lst) }
        ensures kept { OnErr result (listeners.new.items ≡ listeners.old.items) }
    {
        self.listen(listeners, lst)
    }
}
