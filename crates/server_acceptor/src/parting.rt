//! What the acceptor does with a worker that ended by a fault, between two turns. Its list of events has no room for what happens then,
//! as thousands of connections may come back.
ghost use Rattle.std.specs.Prelude.{◌≡◌, ◌+◌, ◌-◌, ◌≤◌, ◌<◌, ◌++◌, ◌∷◌, ◌≢◌, ◌&&◌, ℕ, [], List, None, length, true, false, is_none, is_some, map, IfSome, slice_get, slice_index, slice_set};
ghost use Rattle.std.specs.FinSet as set;
ghost use Rattle.rtrb.specs.Ring.{ConsumerLooked, IsPair, ProducerLooked, SameConsumer, SameProducer, known_free, known_items, producer_capacity, received, sent};
ghost use Rattle.server_core.specs.Core.{all_retired, allowed, in_order, step};
ghost use Rattle.server_core.specs.declared.event.Event.{Event as EventOf};
ghost use Rattle.server_core.specs.declared.event.Event.TheVariants.{Back as BackOf, Faulted, Replaced, Retired};
ghost use Rattle.server_jobs.specs.declared.note.Note.TheVariants.{Back};
ghost use Rattle.server_run.specs.Done.{Adds};
ghost use Rattle.server_run.specs.Outcome.{is_stopped};
ghost use Rattle.server_run.specs.declared.outcome.Outcome.TheVariants.{Lost};
ghost use Rattle.server_acceptor.specs.Accepting.{Acts, received_at};
ghost use Rattle.server_acceptor.specs.Acceptors.{core_of, notes_of, out_of, parcels_of, waiting_of, workers_of};
ghost use Rattle.server_acceptor.specs.Commanding.{gone_of};
ghost use Rattle.server_acceptor.specs.Parting.{LeavesRest};
ghost use Rattle.server_acceptor.specs.Sending.{sent_to};

use crate::acceptor::Acceptor;
use crate::commanding::hand_on;
use rtrb::{Consumer, Producer};
use server_core::Event;
use server_jobs::{Note, Parcel};
use server_run::{Done, Entry, Listener, Outcome};
use service_core::Link;

// Sends a connection over a ring back of which both ends are here, and takes it there.
fn pass_back<L: Drop>(
    consumer: &mut Consumer<Note<L>>,
    notes: &mut Producer<Note<L>>,
    entry: Entry<L>,
) -> Entry<L>
    requires pair { IsPair notes.old consumer.old }
    requires all { received consumer.old ≡ sent notes.old }
    requires place { 0 < producer_capacity notes.old }
    ensures same { result ≡ entry }
    ensures notes { SameProducer notes.old notes.new }
    ensures consumer { SameConsumer consumer.old consumer.new }
    ensures pair { IsPair notes.new consumer.new }
    ensures sent { sent notes.new ≡ sent notes.old ++ Back entry ∷ [] }
    ensures received { received consumer.new ≡ received consumer.old ++ Back entry ∷ [] }
{
    notes.slots_beside(consumer);
    notes.push_reserved(Note::Back(entry));
    consumer.slots_beside(notes);
    let Note::Back(entry) = consumer.pop_known() else {
        unreachable!()
    };
    entry
}

impl<L: Link> Acceptor<L> {
    /// Takes the worker out of the order, if it is there, so that it gets no more connections.
    pub fn leave<Li: Listener<Link = L>, Do: Done<L>>(&mut self, w: usize)
        requires number { w < workers_of self.old }
        ensures acts { (listeners : List Li) (done : Do) → (events : List EventOf) × Acts Li.given Li.left Li.rest L.identity Li.ended Li.faults Do.taken Do.count Do.served listeners listeners self.old self.new done done events false }
        ensures left { in_order (core_of self.new).order w ≡ false }
        ensures faulted { allowed (core_of self.old) (Faulted w) ≡ true → core_of self.new ≡ step (core_of self.old) (Faulted w) }
        ensures same { allowed (core_of self.old) (Faulted w) ≡ false → core_of self.new ≡ core_of self.old }
        ensures others { (v : ℕ) → in_order (core_of self.old).order v ≡ false → in_order (core_of self.new).order v ≡ false }
        ensures retired { (core_of self.new).retired ≡ (core_of self.old).retired }
        ensures out { (core_of self.new).out ≡ (core_of self.old).out }
        ensures parcels { parcels_of self.new ≡ parcels_of self.old }
        ensures notes { notes_of self.new ≡ notes_of self.old }
        ensures waiting { waiting_of self.new ≡ waiting_of self.old }
        ensures rest { LeavesRest self.old self.new }
    {
        if !self.core.allows(&Event::Faulted(w)) {
            return;
        }
        self.core.step(Event::Faulted(w));
    }

    // Looks at what is left in the ring to a worker whose end it is lent.
    fn look_to<Li: Listener<Link = L>, Do: Done<L>>(
        &mut self,
        w: usize,
        parcels: &mut Consumer<Parcel<L>>,
    )
        requires number { w < workers_of self.old }
        requires to_it { IfSome (slice_get (parcels_of self.old) w) (λ p. IsPair p parcels.old) }
        ensures acts { (listeners : List Li) (done : Do) → Acts Li.given Li.left Li.rest L.identity Li.ended Li.faults Do.taken Do.count Do.served listeners listeners self.old self.new done done [] false }
        ensures core { core_of self.new ≡ core_of self.old }
        ensures notes { notes_of self.new ≡ notes_of self.old }
        ensures waiting { waiting_of self.new ≡ waiting_of self.old }
        ensures rest { LeavesRest self.old self.new }
        ensures parcels { ConsumerLooked parcels.old parcels.new }
        ensures to_it { received parcels.new ++ known_items parcels.new ≡ sent_to (parcels_of self.new) w }
        ensures pair { IfSome (slice_get (parcels_of self.new) w) (λ p. IsPair p parcels.new) }
    {
        parcels.slots_beside(&mut self.parcels[w]);
    }

    // Looks at what is left in the ring back of a worker whose end it is lent.
    fn look_from<Li: Listener<Link = L>, Do: Done<L>>(
        &mut self,
        w: usize,
        notes: &mut Producer<Note<L>>,
    )
        requires number { w < workers_of self.old }
        requires from_it { IfSome (slice_get (notes_of self.old) w) (λ c. IsPair notes.old c) }
        ensures acts { (listeners : List Li) (done : Do) → Acts Li.given Li.left Li.rest L.identity Li.ended Li.faults Do.taken Do.count Do.served listeners listeners self.old self.new done done [] false }
        ensures core { core_of self.new ≡ core_of self.old }
        ensures parcels { parcels_of self.new ≡ parcels_of self.old }
        ensures waiting { waiting_of self.new ≡ waiting_of self.old }
        ensures rest { LeavesRest self.old self.new }
        ensures notes { ProducerLooked notes.old notes.new }
        ensures from_it { IfSome (slice_get (notes_of self.new) w) (λ c. received c ++ known_items c ≡ sent notes.new) }
        ensures received { map (λ c. received c) (notes_of self.new) ≡ map (λ c. received c) (notes_of self.old) }
        ensures pair { IfSome (slice_get (notes_of self.new) w) (λ c. IsPair notes.new c) }
    {
        self.notes[w].slots_beside(notes);
    }

    // Looks how many places the ring back of a worker has whose end it is lent.
    fn look_free<Li: Listener<Link = L>, Do: Done<L>>(
        &mut self,
        w: usize,
        notes: &mut Producer<Note<L>>,
    )
        requires number { w < workers_of self.old }
        requires from_it { IfSome (slice_get (notes_of self.old) w) (λ c. IsPair notes.old c) }
        ensures acts { (listeners : List Li) (done : Do) → Acts Li.given Li.left Li.rest L.identity Li.ended Li.faults Do.taken Do.count Do.served listeners listeners self.old self.new done done [] false }
        ensures core { core_of self.new ≡ core_of self.old }
        ensures parcels { parcels_of self.new ≡ parcels_of self.old }
        ensures waiting { waiting_of self.new ≡ waiting_of self.old }
        ensures rest { LeavesRest self.old self.new }
        ensures notes { ProducerLooked notes.old notes.new }
        ensures free { producer_capacity notes.new + length (received_at (notes_of self.new) w) ≡ known_free notes.new + length (sent notes.new) }
        ensures received { map (λ c. received c) (notes_of self.new) ≡ map (λ c. received c) (notes_of self.old) }
        ensures pair { IfSome (slice_get (notes_of self.new) w) (λ c. IsPair notes.new c) }
    {
        notes.slots_beside(&mut self.notes[w]);
    }

    /// Looks at what is left in both rings of a worker whose ends it is lent, so that what was taken and what is left are all that was
    /// put there.
    pub fn look_beside<Li: Listener<Link = L>, Do: Done<L>>(
        &mut self,
        w: usize,
        parcels: &mut Consumer<Parcel<L>>,
        notes: &mut Producer<Note<L>>,
    )
        requires number { w < workers_of self.old }
        requires to_it { IfSome (slice_get (parcels_of self.old) w) (λ p. IsPair p parcels.old) }
        requires from_it { IfSome (slice_get (notes_of self.old) w) (λ c. IsPair notes.old c) }
        ensures acts { (listeners : List Li) (done : Do) → Acts Li.given Li.left Li.rest L.identity Li.ended Li.faults Do.taken Do.count Do.served listeners listeners self.old self.new done done [] false }
        ensures core { core_of self.new ≡ core_of self.old }
        ensures waiting { waiting_of self.new ≡ waiting_of self.old }
        ensures rest { LeavesRest self.old self.new }

        // What was taken from each ring, and what is left in it, is all that went there.
        ensures parcels { ConsumerLooked parcels.old parcels.new }
        ensures notes { ProducerLooked notes.old notes.new }
        ensures to_it { received parcels.new ++ known_items parcels.new ≡ sent_to (parcels_of self.new) w }
        ensures from_it { IfSome (slice_get (notes_of self.new) w) (λ c. received c ++ known_items c ≡ sent notes.new) }
        ensures received { map (λ c. received c) (notes_of self.new) ≡ map (λ c. received c) (notes_of self.old) }
        ensures free { producer_capacity notes.new + length (received_at (notes_of self.new) w) ≤ known_free notes.new + length (sent notes.new) }
        ensures pair_to { IfSome (slice_get (parcels_of self.new) w) (λ p. IsPair p parcels.new) }
        ensures pair_from { IfSome (slice_get (notes_of self.new) w) (λ c. IsPair notes.new c) }
    {
        self.look_to::<Li, Do>(w, parcels);
        self.look_free::<Li, Do>(w, notes);
        self.look_from::<Li, Do>(w, notes);
    }

    /// Takes a connection back from a worker that was joined, over the ring back, of which it is lent the worker's end, and hands it on.
    pub fn take_back<Li: Listener<Link = L>, Do: Done<L>>(
        &mut self,
        w: usize,
        notes: &mut Producer<Note<L>>,
        entry: Entry<L>,
        done: &mut Do,
    )
        requires number { w < workers_of self.old }
        requires from_it { IfSome (slice_get (notes_of self.old) w) (λ c. IsPair notes.old c) }
        requires all { received_at (notes_of self.old) w ≡ sent notes.old }
        requires place { 0 < producer_capacity notes.old }
        requires out { 0 < slice_index (core_of self.old).out w }
        requires left { in_order (core_of self.old).order w ≡ false }
        requires founded { is_stopped entry.outcome ≡ true → is_some (core_of self.old).stopping ≡ true }
        requires spare { out_of self.old ≤ Do.spare done.old }
        ensures acts { (listeners : List Li) → (events : List EventOf) × Acts Li.given Li.left Li.rest L.identity Li.ended Li.faults Do.taken Do.count Do.served listeners listeners self.old self.new done.old done.new events false }
        ensures adds { Adds Do.taken Do.count Do.served done.old done.new (entry ∷ []) }
        ensures spare { out_of self.new ≤ Do.spare done.new }

        // The ring back is the same one, over which the connection went.
        ensures same { SameProducer notes.old notes.new }
        ensures sent { sent notes.new ≡ sent notes.old ++ Back entry ∷ [] }
        ensures received { map (λ c. received c) (notes_of self.new) ≡ slice_set (map (λ c. received c) (notes_of self.old)) w (sent notes.new) }
        ensures from_it { IfSome (slice_get (notes_of self.new) w) (λ c. IsPair notes.new c) }
        ensures all { received_at (notes_of self.new) w ≡ sent notes.new }
        ensures parcels { parcels_of self.new ≡ parcels_of self.old }

        // One is out less at the worker.
        ensures core { core_of self.new ≡ step (core_of self.old) (BackOf w) }
        ensures out { (core_of self.new).out ≡ slice_set (core_of self.old).out w (slice_index (core_of self.old).out w - 1) }
        ensures order { (core_of self.new).order ≡ (core_of self.old).order }
        ensures retired { (core_of self.new).retired ≡ (core_of self.old).retired }
        ensures waiting { waiting_of self.new ≡ waiting_of self.old }
        ensures rest { LeavesRest self.old self.new }
    {
        let entry = pass_back(&mut self.notes[w], notes, entry);
        self.core.step(Event::Back(w));
        self.out -= 1;
        done.take(entry);
    }

    /// Puts the worker, which was replaced, last in the order. False says that it is in order already, is retired, or has connections
    /// out.
    pub fn replace<Li: Listener<Link = L>, Do: Done<L>>(&mut self, w: usize) -> bool
        requires number { w < workers_of self.old }
        ensures acts { (listeners : List Li) (done : Do) → (events : List EventOf) × Acts Li.given Li.left Li.rest L.identity Li.ended Li.faults Do.taken Do.count Do.served listeners listeners self.old self.new done done events false }
        ensures replaced { result ≡ true → core_of self.new ≡ step (core_of self.old) (Replaced w) }
        ensures refused { result ≡ false → (core_of self.new ≡ core_of self.old) × (allowed (core_of self.old) (Replaced w) ≡ false) }
        ensures parcels { parcels_of self.new ≡ parcels_of self.old }
        ensures notes { notes_of self.new ≡ notes_of self.old }
        ensures waiting { waiting_of self.new ≡ waiting_of self.old }
        ensures rest { LeavesRest self.old self.new }
    {
        if !self.core.allows(&Event::Replaced(w)) {
            return false;
        }
        self.core.step(Event::Replaced(w));
        true
    }

    /// Retires the worker. True says that no worker is left, and no stop was taken up: a connection that waited was handed on then, as one
    /// that was lost with no worker.
    pub fn retire<Li: Listener<Link = L>, Do: Done<L>>(&mut self, w: usize, done: &mut Do) -> bool
        requires number { w < workers_of self.old }
        requires spare { out_of self.old ≤ Do.spare done.old }
        ensures acts { (listeners : List Li) → (events : List EventOf) × Acts Li.given Li.left Li.rest L.identity Li.ended Li.faults Do.taken Do.count Do.served listeners listeners self.old self.new done.old done.new events result }
        ensures spare { out_of self.new ≤ Do.spare done.new }
        ensures retired { allowed (core_of self.old) (Retired w) ≡ true → (core_of self.new ≡ step (core_of self.old) (Retired w)) × (result ≡ (all_retired (core_of self.new) && is_none (core_of self.new).stopping)) }
        ensures refused { allowed (core_of self.old) (Retired w) ≡ false → (core_of self.new ≡ core_of self.old) × (result ≡ false) }
        ensures last { result ≡ true → (all_retired (core_of self.new) ≡ true) × (waiting_of self.new ≡ None) × ((core_of self.new).stopping ≡ None) }
        ensures not_last { result ≡ false → waiting_of self.new ≡ waiting_of self.old }
        ensures lost { result ≡ true → Adds Do.taken Do.count Do.served done.old done.new (gone_of (Lost None) (waiting_of self.old)) }
        ensures none { result ≡ false → done.new ≡ done.old }
        ensures order { (core_of self.new).order ≡ (core_of self.old).order }
        ensures others { (v : ℕ) → v ≢ w → set.contains (core_of self.new).retired v ≡ set.contains (core_of self.old).retired v }
        ensures out { (core_of self.new).out ≡ (core_of self.old).out }
        ensures parcels { parcels_of self.new ≡ parcels_of self.old }
        ensures notes { notes_of self.new ≡ notes_of self.old }
        ensures rest { LeavesRest self.old self.new }
    {
        if !self.core.allows(&Event::Retired(w)) {
            return false;
        }
        self.core.step(Event::Retired(w));
        if self.core.stopping() {
            return false;
        }
        if !self.core.all_retired() {
            return false;
        }
        hand_on(self.waiting.take(), Outcome::Lost { worker: None }, done);
        true
    }
}
