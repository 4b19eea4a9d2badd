use crate::gate_making::GateMaking;
use crate::gate_service::GateService;
use crate::parts::{Factory, Fault, InitError};
use service_core::{Ended, Link, ServiceFactory};

/// The factory of the services of connections.
#[derive(Drop)]
pub(crate) struct GateServices<L> {
    pub(crate) factory: Factory<L>,
}

impl<L: Link> ServiceFactory<L> for GateServices<L> {
    type Response = Ended<L>;

    type Error = Fault<L>;

    type Config = ();

    type Service = GateService<L>;

    type InitError = InitError;

    type Future = GateMaking<L>;

    ghost can_make = { λ f. ⟦<Factory<L> as ServiceFactory<L>>⟧.can_make f.factory };

    ghost may = { λ f. ⟦<Factory<L> as ServiceFactory<L>>⟧.may f.factory };

    ghost may_ready = { λ f. ⟦<Factory<L> as ServiceFactory<L>>⟧.may_ready f.factory };

    ghost may_begin = { λ f c link future. ⟦<Factory<L> as ServiceFactory<L>>⟧.may_begin f.factory c link future.connection };

    ghost may_init = { λ f. ⟦<Factory<L> as ServiceFactory<L>>⟧.may_init f.factory };

    ghost may_make = { λ f. ⟦<Factory<L> as ServiceFactory<L>>⟧.may_make f.factory };

    ghost begun_gives = { λ f c link future begun. begun.fits };

    fn new_service(&self, cfg: ()) -> GateMaking<L> {
        GateMaking {
            making: self.factory.new_service(cfg),
        }
    }
}
