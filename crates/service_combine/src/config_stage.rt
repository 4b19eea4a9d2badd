ghost use Rattle.std.specs.Prelude.{◌≡◌};
ghost use Rattle.std.specs.Arc.{arc_value};
ghost use Rattle.service_combine.specs.Staging.{HasFirst, IsFirst};
ghost use Rattle.service_combine.specs.declared.config_stage.ConfigStage.TheVariants.{Second};

use crate::made_ready::MadeReady;
use service_core::Watched;
use std::mem::replace;
use std::sync::Arc;

/// How far a factory of `apply_cfg_factory` has come.
#[derive(Drop)]
pub(crate) enum ConfigStage<X, S, Req, C, P, Y> {
    /// The service is being made, or is not ready yet.
    First {
        making: MadeReady<X, S, Req>,
        cfg: C,
        parts: Arc<P>,
    },
    /// The closure's future runs.
    Second {
        future: Watched<Y>,
    },
    Refused,
    Done,
}

impl<X: Drop, S: Drop, Req: Drop, C: Drop, P: Drop, Y: Drop> ConfigStage<X, S, Req, C, P, Y> {
    // What the first stage keeps for the closure.
    pub(crate) fn take_first(&mut self) -> (C, Arc<P>)
        requires { IsFirst self.old }
        ensures { HasFirst self.old result.0 (arc_value result.1) }
    {
        match replace(self, ConfigStage::Done) {
            ConfigStage::First {
                making: _,
                cfg,
                parts,
            } => (cfg, parts),
            _ => unreachable!(),
        }
    }

    // The closure's future runs from now on.
    pub(crate) fn go_on(&mut self, future: Watched<Y>)
        ensures { self.new ≡ Second future }
    {
        *self = ConfigStage::Second { future };
    }
}
