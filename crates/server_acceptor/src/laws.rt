//! What follows from what the turns of an acceptor do.
ghost use Rattle.std.specs.Prelude.{◌++◌, List};
ghost use Rattle.server_core.specs.declared.event.Event.{Event};
ghost use Rattle.server_acceptor.specs.Accepting.{Does};
ghost use Rattle.server_acceptor.specs.declared.acceptor.Acceptor.{Acceptor};

use server_run::{Done, Listener};

/// What an acceptor did up to a turn and what it did from there on are what it did in all, by the events of both.
pub fn turns_compose<Li, Do>()
where
    Li: Listener,
    Do: Done<Li::Link>,
    ensures { (before middle after : List Li) (a b c : Acceptor Li.Link) (old between new : Do) (events more : List Event)
        → Does Li.given Li.left Li.rest Li.Link.identity Li.ended Li.faults Do.taken Do.count Do.served before middle a b old between events
        → Does Li.given Li.left Li.rest Li.Link.identity Li.ended Li.faults Do.taken Do.count Do.served middle after b c between new more
        → Does Li.given Li.left Li.rest Li.Link.identity Li.ended Li.faults Do.taken Do.count Do.served before after a c old new (events ++ more) }
{}
