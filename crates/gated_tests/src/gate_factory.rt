//! The factory of the services of connections, by token.
ghost use Rattle.std.specs.Prelude.{◌≡◌, ⊤, None, Ok};
ghost use Rattle.futures.specs.declared.task.Poll.TheVariants.{Ready as PollReady};

use crate::flags::SharedFlags;
use crate::gate::Gate;
use crate::gate_services::GateServices;
use crate::parts::{Calls, Factory};
use http_service::HttpService;
use server_run::ServerServiceFactory;
use service_core::Link;
use std::alloc::{AllocError, Global};

/// Makes, for every listener, services whose calls share the flags.
#[derive(Drop)]
pub(crate) struct GateFactory {
    pub(crate) flags: SharedFlags,
}

// The factory of connections whose requests are answered so.
fn over<L: Link>(alloc: Global, calls: Calls) -> Factory<L>
    ensures { result.upgrade ≡ None }
{
    HttpService::build(alloc).finish(calls).tcp()
}

impl Clone for GateFactory {
    ghost is_clone = { λ _ _. ⊤ };

    fn clone(&self) -> Result<GateFactory, AllocError> {
        Ok(GateFactory {
            flags: self.flags.clone()?,
        })
    }
}

impl<L: Link> ServerServiceFactory<L> for GateFactory {
    type Factory = GateServices<L>;

    ghost may_serve = { λ _ _ link ended. L.identity ended.link ≡ L.identity link };

    ghost may_leave = { λ _ _ link back. L.identity back ≡ L.identity link };

    ghost may_ready = { λ _ _ answer. answer ≡ PollReady (Ok tt) };

    ghost may_init = { λ _ _ _. ⊤ };

    ghost may_make = { λ _ _. ⊤ };

    fn create(&self, alloc: Global, _token: usize) -> Result<GateServices<L>, AllocError> {
        let calls = Gate {
            alloc,
            flags: self.flags.clone()?,
        };
        Ok(GateServices {
            factory: over(alloc, calls),
        })
    }

    ghost same_served = { λ _ _ _ _ same. same };

    ghost same_left = { λ _ _ _ _ same. same };
}
