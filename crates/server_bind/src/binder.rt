ghost use Rattle.std.specs.Prelude.{◌≡◌, ℕ, List, Option, IfOk, IfSome, OnOk, OnErr, All};
ghost use Rattle.service_core.specs.Counts.{Rose};
ghost use Rattle.server_bind.specs.Stock.{IsSteady};
ghost use Rattle.server_run.specs.Listener.{IsTakenFrom};

use server_run::{Host, Listener};

/// A binder refused an address, and its count rose.
#[derive(Clone, Copy, Debug, PartialEq, Eq)]
pub struct BindFailed;

/// What gives listeners at addresses (the sockets of `actix-server`).
///
/// A binder tells the listeners that it hands out, or it does not: clauses on them hold where it does.
pub trait Binder {
    /// The listeners that it gives.
    type Listener: Listener;

    // The listeners still to be handed out, in order, where it tells them.
    ghost stock: { Self → Option (List Self.Listener) };

    // How often an address was refused. At u64's greatest it stays.
    ghost refusals: { Self → ℕ };

    /// A listener at a TCP address, as `127.0.0.1:8080`. A refusal is counted.
    fn tcp<Ho: Host>(&mut self, rt: &Ho, addr: &str) -> Result<Self::Listener, BindFailed>
        ensures first { IfOk result (λ listener. IsTakenFrom (stock self.old) listener (stock self.new)) }
        ensures bound { OnOk result (refusals self.new ≡ refusals self.old) }
        ensures refused { OnErr result (Rose (refusals self.old) (refusals self.new)) }
        ensures kept { OnErr result (stock self.new ≡ stock self.old) };

    /// A listener at the path of a Unix socket. A refusal is counted.
    fn unix<Ho: Host>(&mut self, rt: &Ho, addr: &str) -> Result<Self::Listener, BindFailed>
        ensures first { IfOk result (λ listener. IsTakenFrom (stock self.old) listener (stock self.new)) }
        ensures bound { OnOk result (refusals self.new ≡ refusals self.old) }
        ensures refused { OnErr result (Rose (refusals self.old) (refusals self.new)) }
        ensures kept { OnErr result (stock self.new ≡ stock self.old) };

    // A listener that it tells never fails, and neither do its links.
    ghost steady: { (binder : Self) → IfSome (stock binder) (All (IsSteady Self.Listener.left Self.Listener.rest Self.Listener.Link.identity)) };
}
