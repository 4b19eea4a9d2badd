//! What holds of the echo, in plain words.
ghost use Rattle.std.specs.Prelude.{ℕ, List, ◌++◌, drop, IfSome};
ghost use Rattle.http_flow.specs.Upgrading.{Grew, IsUpgrade};
ghost use Rattle.http_flow.specs.declared.framed.HandedEnd.TheVariants.{Done};
ghost use Rattle.handlers.specs.Echoing.{Echoed};
ghost use Rattle.handlers.specs.declared.echo_upgrade.EchoUpgrade.{EchoUpgrade};

use crate::{Echo, EchoUpgrade};
use http_flow::Framed;
use http1_plain::Request;
use service_core::{Link, LinkHolder, Service, ServiceFactory};

/// An `EchoUpgrade` keeps the conditions of an upgrade service, and so do those that it makes.
pub fn echo_upgrade_hands_back<L: Link>()
    ensures service { (upgrade : EchoUpgrade) → IsUpgrade L.Link
        (⟦<EchoUpgrade as Service<(Request, Framed<L>)>>⟧.may upgrade)
        (⟦<EchoUpgrade as Service<(Request, Framed<L>)>>⟧.may_begin upgrade)
        ⟦<Echo<L> as LinkHolder<L>>⟧.may_stand }
    ensures factory { (upgrade : EchoUpgrade) → IsUpgrade L.Link
        (⟦<EchoUpgrade as ServiceFactory<(Request, Framed<L>)>>⟧.may upgrade tt)
        (⟦<EchoUpgrade as ServiceFactory<(Request, Framed<L>)>>⟧.may_begin upgrade tt)
        ⟦<Echo<L> as LinkHolder<L>>⟧.may_stand }
{}

/// An echo that is done has written the unread bytes, and then all that the link still held.
pub fn a_done_echo_is_whole<L: Link>()
    ensures { (given link : L) (unread : List ℕ) → Echoed L.Link given unread (record { link = link; end = Done })
        → IfSome (L.Link.identity given).held
        (λ all. Grew (L.Link.written given) (L.Link.written link) (unread ++ drop (L.Link.taken given) all)) }
{}
