//! What holds of the services of a connection that has none of its own.
ghost use Rattle.http_flow.specs.Upgrading.{IsUpgrade};
ghost use Rattle.http_flow.specs.declared.upgrade_handler.UpgradeHandler.{UpgradeHandler};

use crate::{Framed, UpgradeHandler, UpgradeHandlerFuture};
use http1_plain::Request;
use service_core::{Link, LinkHolder, Service, ServiceFactory};

/// An `UpgradeHandler` keeps the conditions of an upgrade service, and so do those that it makes.
pub fn upgrade_handler_hands_back<L: Link>()
    ensures service { (handler : UpgradeHandler) → IsUpgrade L.Link
        (⟦<UpgradeHandler as Service<(Request, Framed<L>)>>⟧.may handler)
        (⟦<UpgradeHandler as Service<(Request, Framed<L>)>>⟧.may_begin handler)
        ⟦<UpgradeHandlerFuture<L> as LinkHolder<L>>⟧.may_stand }
    ensures factory { (handler : UpgradeHandler) → IsUpgrade L.Link
        (⟦<UpgradeHandler as ServiceFactory<(Request, Framed<L>)>>⟧.may handler tt)
        (⟦<UpgradeHandler as ServiceFactory<(Request, Framed<L>)>>⟧.may_begin handler tt)
        ⟦<UpgradeHandlerFuture<L> as LinkHolder<L>>⟧.may_stand }
{}
