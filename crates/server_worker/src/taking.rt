//! What a worker takes from its ring.
ghost use Rattle.std.specs.Prelude.{◌≡◌, ◌+◌, ◌<◌, ◌||◌, not, true, IsTrue, IsFalse, IfOk, IfErr, [], length};
ghost use Rattle.rtrb.specs.Ring.{known_items};
ghost use Rattle.server_worker.specs.Holding.{Accounts};
ghost use Rattle.server_worker.specs.Taken.{Grows, Takes};
ghost use Rattle.server_worker.specs.Room.{HasRoom, IsFresh};

use crate::connections::Connections;
use rtrb::{Consumer, Producer};
use server_jobs::{Note, Parcel, Waiting};
use service_core::Link;
use std::alloc::Global;
use std::collections::VecDeque;

impl<L: Link, Fut: Drop> Connections<L, Fut> {
    // None, where there is no memory for the note that all services stand.
    pub(crate) fn new(
        alloc: Global,
        parcels: Consumer<Parcel<L>>,
        notes: Producer<Note<L>>,
    ) -> Result<Connections<L, Fut>, (Consumer<Parcel<L>>, Producer<Note<L>>)>
        ensures fresh { IfOk result IsFresh }
        ensures parcels { IfOk result (λ w. w.parcels ≡ parcels) }
        ensures notes { IfOk result (λ w. w.notes ≡ notes) }
        ensures back { IfErr result (λ ends. ends ≡ (parcels, notes)) }
    {
        let mut owed = VecDeque::new(alloc);
        if owed.reserve(1).is_err() {
            return Err((parcels, notes));
        }
        Ok(Connections {
            parcels,
            notes,
            queue: VecDeque::new(alloc),
            strays: Vec::new(alloc),
            live: Vec::new(alloc),
            resting: 0,
            berths: Vec::new(alloc),
            owed,
            stopped: false,
            forced: false,
            told: false,
        })
    }

    // Makes room for one connection more.
    fn make_room(&mut self) -> bool
        ensures same { Accounts L.identity self.old self.new }
        ensures grows { Grows self.old self.new }
        ensures room { IsTrue result → HasRoom self.new }
    {
        let waiting = self.queue.len() + 1;
        let all = self.live.len() + self.strays.len() + waiting + 1;
        self.queue.reserve(1).is_ok()
            && self.strays.reserve(self.live.len() + waiting).is_ok()
            && self.live.reserve(waiting).is_ok()
            && self.owed.reserve(all).is_ok()
    }

    #[tactic(auto, using(crate::proofs::TakeSteps::or_none, crate::proofs::TakeSteps::or_true))]
    // A stop came.
    fn note_stop(&mut self, graceful: bool)
        ensures stopped { self.new.stopped ≡ true }
        ensures forced { self.new.forced ≡ (self.old.forced || not graceful) }
        ensures parcels { self.new.parcels ≡ self.old.parcels }
        ensures notes { self.new.notes ≡ self.old.notes }
        ensures queue { self.new.queue ≡ self.old.queue }
        ensures strays { self.new.strays ≡ self.old.strays }
        ensures live { self.new.live ≡ self.old.live }
        ensures owed { self.new.owed ≡ self.old.owed }
        ensures told { self.new.told ≡ self.old.told }
    {
        self.stopped = true;
        if graceful {
            return;
        }
        self.forced = true;
    }

    // Takes one parcel that is known, for which there is room.
    fn take_one(&mut self, listeners: usize)
        requires known { 0 < length (known_items self.old.parcels) }
        requires room { HasRoom self.old }
        ensures accounts { Accounts L.identity self.old self.new }
        ensures takes { Takes listeners self.old self.new }
        ensures fewer { length (known_items self.new.parcels) + 1 ≡ length (known_items self.old.parcels) }
    {
        match self.parcels.pop_known() {
            Parcel::Conn {
                serial,
                token,
                place,
                link,
            } => {
                let waiting = Waiting {
                    serial,
                    token,
                    place,
                    link,
                };
                if token < listeners {
                    self.queue.push_back_reserved(waiting);
                } else {
                    self.strays.push_reserved(waiting);
                }
            }
            Parcel::Stop { graceful } => self.note_stop(graceful),
        }
    }

    // Takes what the ring holds. False where there was no memory for a parcel; it stays in the ring.
    pub(crate) fn take(&mut self, listeners: usize) -> bool
        ensures accounts { Accounts L.identity self.old self.new }
        ensures takes { Takes listeners self.old self.new }
        ensures emptied { IsTrue result → known_items self.new.parcels ≡ [] }
        ensures refused { IsFalse result → 0 < length (known_items self.new.parcels) }
    {
        for _ in 0..self.parcels.slots() {
            if !self.make_room() {
                return false;
            }
            self.take_one(listeners);
        }
        true
    }
}
