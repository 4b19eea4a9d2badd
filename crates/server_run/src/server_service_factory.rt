ghost use Rattle.std.specs.Prelude.{◌≡◌, ℕ, IfOk};
ghost use Rattle.service_core.specs.Meaning.{Readiness};
ghost use Rattle.service_core.specs.declared.ended.Ended.{Ended};
ghost use Rattle.server_run.specs.Creating.{Creates};

use service_core::{Ended, Link, LinkHolder, Service, ServiceFactory};
use std::alloc::{AllocError, Global};

/// Makes, for a listener's token, the factory of the services of its connections (`actix-server`'s `ServerServiceFactory`).
pub trait ServerServiceFactory<L: Link>: Drop {
    /// The factory of a token's services. A service ends each connection with its link, and the future of the connection
    /// can hand the link back before that.
    type Factory: ServiceFactory<
        L,
        Response = Ended<L>,
        Error: Drop,
        Config = (),
        Service: Service<L, Future: LinkHolder<L>> + Drop,
    >
        + Drop;

    // Holds of each end that a service of the token may give to the link as it was given.
    ghost may_serve: { Self → ℕ → L → Ended L → Type 0 };

    // Holds of each link that the future of such a service may hand back, for the link as it was given.
    ghost may_leave: { Self → ℕ → L → L → Type 0 };

    // Holds of each answer that the readiness of such a service may give.
    ghost may_ready: { Self → ℕ → Readiness Self.Factory.Error → Type 0 };

    // Holds of each error that may come in place of a service of the token.
    ghost may_init: { Self → ℕ → Self.Factory.InitError → Type 0 };

    // Holds wherever a service of the token is made.
    ghost may_make: { Self → ℕ → Type 0 };

    /// The factory of the services of one listener's connections, by the listener's token: its place in the list of
    /// listeners. It is refused only for want of memory. The factory that it answers may still refuse to make a service.
    fn create(&self, alloc: Global, token: usize) -> Result<Self::Factory, AllocError>
        ensures { IfOk result (Creates Self.Factory.ServiceFactory Self.Factory.Service.Future.may_stand
            (may_serve self.now token) (may_leave self.now token) (may_ready self.now token)
            (may_init self.now token) (may_make self.now token)) };

    // A service ends with the link that it was given.
    ghost same_served: { (f : Self) (token : ℕ) (link : L) (ended : Ended L) → may_serve f token link ended
        → L.identity ended.link ≡ L.identity link };

    // So does a future that hands its link back.
    ghost same_left: { (f : Self) (token : ℕ) (link back : L) → may_leave f token link back
        → L.identity back ≡ L.identity link };
}
