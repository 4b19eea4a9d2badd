//! How the acceptor gives the connection that waits to a worker.
ghost use Rattle.std.specs.Prelude.{◌≡◌, ◌↔◌, ◌+◌, ◌*◌, ◌≤◌, ◌<◌, ℕ, length, vec_len, IsTrue, IsFalse, None, Some, is_some, true, false, nat_eq};
ghost use Rattle.std.specs.List.{IsDistinct};
ghost use Rattle.std.specs.FinSet as set;
ghost use Rattle.server_core.specs.Core.{first_free, in_order};
ghost use Rattle.server_acceptor.specs.Acceptors.{core_of, events_of, waiting_of, workers_of};
ghost use Rattle.server_acceptor.specs.Logging.{Logs};
ghost use Rattle.server_acceptor.specs.Placing.{waits_of, IsPlaced, Refuses, Sends, Stays};
ghost use Rattle.server_acceptor.specs.declared.placed.Placed.TheVariants.{Nothing};

use crate::acceptor::Acceptor;
use crate::logging::log;
use crate::placed::Placed;
use rtrb::PushError;
use server_core::{AcceptCore, Availability, Event};
use server_jobs::{Parcel, Waiting};
use service_core::Link;

// How many workers get connections in turn.
fn turns(core: &AcceptCore) -> usize
    ensures value { result ≡ length core.now.order }
    ensures fits { result ≤ length core.now.out }
    ensures distinct { IsDistinct nat_eq core.now.order }
{
    core.order().len()
}

impl<L: Link> Acceptor<L> {
    /// The events of the last turn, and of the calls of `place` since.
    pub fn events(&self) -> &[Event]
        ensures { result.now ≡ events_of self.now }
    {
        &self.events
    }

    /// For how many more events there is room.
    pub fn event_room(&self) -> usize
        ensures { result + length (events_of self.now) ≡ 8 * workers_of self.now + 600 }
    {
        self.events.capacity() - self.events.len()
    }

    // Offers the connection that waits to the worker whose turn it is.
    fn offer(&mut self, w: usize) -> bool
        requires waits { is_some self.old.core.waiting ≡ true }
        requires number { w < length self.old.core.out }
        requires first { first_free self.old.core ≡ Some w }
        requires free { set.contains self.old.core.free w ≡ true }
        requires in_turn { in_order self.old.core.order w ≡ true }
        requires room { vec_len self.old.events + 2 ≤ 8 * length self.old.core.out + 600 }
        ensures sent { IsTrue result → Sends self.old self.new w }
        ensures refused { IsFalse result → Refuses self.old self.new w }
    {
        let limit = self.limit;
        let Some(waiting) = self.waiting.take() else {
            unreachable!()
        };
        let Waiting {
            serial,
            token,
            place,
            link,
        } = waiting;
        match self.parcels[w].push(Parcel::Conn {
            serial,
            token,
            place,
            link,
        }) {
            Ok(()) => {
                let remains = self.core.out(w) + 1 < limit;
                log(
                    &mut self.core,
                    &mut self.events,
                    Event::Sent { worker: w, remains },
                );
                self.out += 1;
                true
            }
            Err(PushError::Full(parcel)) => {
                self.waiting = waiting_of(parcel);
                log(&mut self.core, &mut self.events, Event::RingFull(w));
                log(&mut self.core, &mut self.events, Event::Notice(w));
                false
            }
        }
    }

    /// Puts the connection that waits on the ring of the first worker that is free and has a place for it.
    pub fn place(&mut self) -> Placed
        requires room { length (events_of self.old) + (2 * workers_of self.old + 1) ≤ 8 * workers_of self.old + 600 }
        ensures logs { Logs (core_of self.old) (core_of self.new) (events_of self.old) (events_of self.new) }
        ensures stays { Stays self.old self.new }
        ensures placed { IsPlaced self.old self.new result }
        ensures nothing { (result ≡ Nothing) ↔ (waiting_of self.old ≡ None) }
    {
        if self.waiting.is_none() {
            return Placed::Nothing;
        }
        let _turns = turns(&self.core);
        let mut passed = Availability::default();
        while let Some(w) = self.core.pick(&passed) {
            if self.offer(w) {
                return Placed::Sent(w);
            }
            passed.set_available(w, true);
        }
        Placed::Waiting
    }
}

// The connection of a parcel.
fn waiting_of<L>(parcel: Parcel<L>) -> Option<Waiting<L>>
    ensures { result ≡ waits_of parcel }
{
    match parcel {
        Parcel::Conn {
            serial,
            token,
            place,
            link,
        } => Some(Waiting {
            serial,
            token,
            place,
            link,
        }),
        Parcel::Stop { graceful: _ } => None,
    }
}
