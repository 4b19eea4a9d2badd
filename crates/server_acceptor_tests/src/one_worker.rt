//! An acceptor beside one worker, which ends by a fault.
ghost use Rattle.std.specs.Prelude.{◌≡◌, ◌≤◌, ◌<◌, ◌++◌, ◌∷◌, [], ℕ, IfOk, IfSome, Some, length, map, slice_get, slice_index_or, true, false};
ghost use Rattle.std.specs.FinSet as set;
ghost use Rattle.rtrb.specs.Ring.{SameConsumer, known_items, producer_capacity, received, sent};
ghost use Rattle.server_acceptor.specs.Accepting.{EndsByFault, received_at};
ghost use Rattle.server_acceptor.specs.Acceptors.{core_of, listeners_of, notes_of, out_of, parcels_of, places_of, workers_of};
ghost use Rattle.server_acceptor.specs.Beginning.{IsNew};
ghost use Rattle.server_acceptor.specs.Rings.{ring_in, ring_out};
ghost use Rattle.server_acceptor.specs.declared.accept_turn.AcceptTurn.TheVariants.{WorkerEnded};
ghost use Rattle.server_core.specs.Core.{allowed, in_order};
ghost use Rattle.server_core.specs.declared.event.Event.TheVariants.{Replaced};
ghost use Rattle.server_jobs.specs.declared.note.Note.TheVariants.{Faulted, Ready};
ghost use Rattle.server_run.specs.Delivery.{given_at};
ghost use Rattle.server_run.specs.declared.outcome.Outcome.TheVariants.{Lost};

use crate::answer::{Answer, listeners};
use crate::book::Book;
use crate::log::Log;
use crate::telling::Given;
use futures::task::Context;
use futures::test::MockTask;
use rtrb::{Consumer, Producer, RingBuffer};
use server_acceptor::{AcceptTurn, Acceptor};
use server_commands::ScriptCommands;
use server_jobs::{Note, Parcel, StepClock};
use server_run::{Done, Entry, Listener, MemoryLink, MemoryListener, Outcome};
use std::alloc::{AllocError, Global};

/// An acceptor beside one worker, whose ends of the rings are here.
#[derive(Drop)]
pub(crate) struct OneWorker {
    acceptor: Acceptor<MemoryLink>,
    listeners: Vec<MemoryListener>,
    commands: ScriptCommands,
    clock: StepClock,
    book: Book,
    parcels: Consumer<Parcel<MemoryLink>>,
    notes: Producer<Note<MemoryLink>>,
    ghost one: { workers_of acceptor ≡ 1 },
    ghost as_many: { length listeners.items ≡ listeners_of acceptor },
    ghost given: { (t : ℕ) → slice_index_or (places_of acceptor) t 0 ≤ given_at ⟦<MemoryListener as Listener>⟧.given listeners.items t },
    ghost spare: { out_of acceptor ≤ ⟦<Book as Done<MemoryLink>>⟧.spare book },
    ghost to_it: { map ring_in (parcels_of acceptor) ≡ ring_out parcels ∷ [] },
    ghost from_it: { map ring_out (notes_of acceptor) ≡ ring_in notes ∷ [] },
    ghost place: { 0 < producer_capacity notes },
    ghost kept: { set.contains (core_of acceptor).retired 0 ≡ false },
}

/// The same where the worker told only that its services stand.
#[derive(Drop)]
pub(crate) struct Standing {
    here: OneWorker,
    ghost told: { sent here.notes ≡ Ready ∷ [] },
}

/// The same where the worker told of a fault, and left the order.
#[derive(Drop)]
pub(crate) struct Fallen {
    here: OneWorker,
    ghost all: { received_at (notes_of here.acceptor) 0 ≡ sent here.notes },
    ghost left: { in_order (core_of here.acceptor).order 0 ≡ false },
}

/// What becomes of a worker that ended by a fault.
#[derive(Drop)]
pub(crate) enum Next {
    /// A connection was taken back from it.
    Fallen(Fallen),
    /// It has connections out, and none is left in the ring to it.
    None,
    /// It was put back in order.
    Back(OneWorker),
}

// One of them.
fn one<T: Drop>(alloc: Global, x: T) -> Result<Vec<T>, AllocError>
    ensures { IfOk result (λ xs. xs.items ≡ x ∷ []) }
{
    let mut xs = Vec::new(alloc);
    xs.push(x)?;
    Ok(xs)
}

// An acceptor over these ends.
fn over(
    alloc: Global,
    parcels: Producer<Parcel<MemoryLink>>,
    notes: Consumer<Note<MemoryLink>>,
) -> Result<Acceptor<MemoryLink>, AllocError>
    ensures { IfOk result (λ a. IsNew a (parcels ∷ []) (notes ∷ []) 1 8 3 30) }
{
    let parcels = one(alloc, parcels)?;
    let notes = one(alloc, notes)?;
    Acceptor::new(alloc, parcels, notes, 1, 8, 3, 30)
}

// The connection of a parcel, lost by the worker.
fn lost(parcel: Parcel<MemoryLink>) -> Option<Entry<MemoryLink>>
    ensures { IfSome result (λ entry. entry.outcome ≡ Lost (Some 0)) }
{
    match parcel {
        Parcel::Conn {
            serial,
            token,
            place,
            link,
        } => Some(Entry {
            serial,
            token,
            place,
            link,
            outcome: Outcome::Lost { worker: Some(0) },
        }),
        Parcel::Stop { graceful: _ } => None,
    }
}

impl OneWorker {
    // One whose services stand, over one listener.
    fn of(alloc: Global, listeners: Vec<MemoryListener>) -> Result<OneWorker, AllocError>
        ensures { IfOk result (λ here. sent here.notes ≡ Ready ∷ []) }
    {
        if listeners.len() != 1 {
            return Err(AllocError);
        }
        let (into, parcels) = RingBuffer::new(alloc, 8)?;
        let (mut notes, out) = RingBuffer::new(alloc, 8)?;
        notes.push_reserved(Note::Ready);
        let acceptor = over(alloc, into, out)?;
        Ok(OneWorker {
            acceptor,
            listeners,
            commands: ScriptCommands::new(alloc, Vec::new(alloc)),
            clock: StepClock::new(0, 1),
            book: Book::new(alloc, u64::MAX),
            parcels,
            notes,
        })
    }

    // The worker tells of a fault.
    fn fault(&mut self) -> bool
        ensures told { result ≡ true → sent self.new.notes ≡ sent self.old.notes ++ Faulted ∷ [] }
    {
        self.notes.push(Note::Faulted).is_ok()
    }

    // The worker leaves the order, and what is left in its rings is seen.
    fn part(self) -> OneWorker
        ensures left { in_order (core_of result.acceptor).order 0 ≡ false }
        ensures told { sent result.notes ≡ sent self.notes }
        ensures came { received_at (notes_of result.acceptor) 0 ≡ received_at (notes_of self.acceptor) 0 }
        ensures all { IfSome (slice_get (notes_of result.acceptor) 0) (λ c. received c ++ known_items c ≡ sent result.notes) }
    {
        let OneWorker {
            mut acceptor,
            listeners,
            commands,
            clock,
            book,
            mut parcels,
            mut notes,
        } = self;
        acceptor.leave::<MemoryListener, Book>(0);
        acceptor.look_beside::<MemoryListener, Book>(0, &mut parcels, &mut notes);
        OneWorker {
            acceptor,
            listeners,
            commands,
            clock,
            book,
            parcels,
            notes,
        }
    }

    // The worker is put back in order, if it may be.
    fn put_back(&mut self) -> bool
        ensures refused { result ≡ false → (core_of self.new.acceptor ≡ core_of self.old.acceptor) × (allowed (core_of self.old.acceptor) (Replaced 0) ≡ false) }
        ensures came { notes_of self.new.acceptor ≡ notes_of self.old.acceptor }
        ensures told { self.new.notes ≡ self.old.notes }
    {
        self.acceptor.replace::<MemoryListener, Book>(0)
    }

    /// One turn.
    pub(crate) fn turn(&mut self, cx: &mut Context<'_>) -> AcceptTurn
        ensures ended { (w : ℕ) → result ≡ WorkerEnded w → (w < 1) × EndsByFault self.old.acceptor self.new.acceptor w }
        ensures notes { self.new.notes ≡ self.old.notes }
    {
        self.acceptor.turn(
            cx,
            &mut self.listeners,
            &mut self.commands,
            &mut self.clock,
            &mut self.book,
        )
    }

    /// The acceptor.
    pub(crate) fn acceptor(&self) -> &Acceptor<MemoryLink> {
        &self.acceptor
    }

    /// What came back.
    pub(crate) fn entries(&self) -> &[Entry<MemoryLink>] {
        self.book.entries()
    }

    /// Whether there was no memory for what comes back.
    pub(crate) fn is_short(&self) -> bool {
        self.book.is_short()
    }
}

impl Standing {
    /// One over a listener that answers so, whose services stand.
    pub(crate) fn new(alloc: Global, answers: &[Answer]) -> Result<Standing, AllocError> {
        let listeners = listeners(alloc, 1, answers)?;
        let here = OneWorker::of(alloc, listeners)?;
        Ok(Standing { here })
    }

    /// One turn.
    pub(crate) fn turn(&mut self, cx: &mut Context<'_>) -> AcceptTurn {
        self.here.turn(cx)
    }

    /// The acceptor.
    pub(crate) fn acceptor(&self) -> &Acceptor<MemoryLink> {
        self.here.acceptor()
    }

    /// The worker tells of a fault, the acceptor is turned, and the worker leaves the order.
    pub(crate) fn fall(self, cx: &mut Context<'_>) -> Option<Fallen> {
        let Standing { mut here } = self;
        if !here.fault() {
            return None;
        }
        let AcceptTurn::WorkerEnded(_) = here.turn(cx) else {
            return None;
        };
        let here = here.part();
        Some(Fallen { here })
    }
}

// The connection that is next in the ring to the worker, lost by it.
fn next_lost(parcels: &mut Consumer<Parcel<MemoryLink>>) -> Option<Entry<MemoryLink>>
    ensures same { SameConsumer parcels.old parcels.new }
    ensures lost { IfSome result (λ entry. entry.outcome ≡ Lost (Some 0)) }
{
    match parcels.pop() {
        Ok(parcel) => lost(parcel),
        Err(_) => None,
    }
}

impl Fallen {
    /// Puts it back in order, or takes back the next connection that is left in the ring to it.
    pub(crate) fn next(self) -> Next {
        let Fallen { mut here } = self;
        if here.put_back() {
            return Next::Back(here);
        }
        let OneWorker {
            mut acceptor,
            listeners,
            commands,
            clock,
            mut book,
            mut parcels,
            mut notes,
        } = here;
        let Some(entry) = next_lost(&mut parcels) else {
            return Next::None;
        };
        acceptor.take_back::<MemoryListener, Book>(0, &mut notes, entry, &mut book);
        let here = OneWorker {
            acceptor,
            listeners,
            commands,
            clock,
            book,
            parcels,
            notes,
        };
        Next::Fallen(Fallen { here })
    }
}

// What happens with a worker that fell.
fn recalled(mut fallen: Fallen, cx: &mut Context<'_>, log: &mut Log) {
    for _ in 0..100_u32 {
        match fallen.next() {
            Next::Fallen(next) => {
                log.word("not replaced\n");
                fallen = next;
            }
            Next::None => return,
            Next::Back(mut here) => {
                log.word("replaced\n");
                log.entries(here.entries());
                let turned = here.turn(cx);
                if here.is_short() {
                    log.lack_memory();
                }
                log.turn(here.acceptor().events(), turned);
                return;
            }
        }
    }
}

// What happens with a worker whose services stand.
fn acted(
    alloc: Global,
    cx: &mut Context<'_>,
    answers: &[Answer],
    log: &mut Log,
) -> Result<(), AllocError> {
    let mut standing = Standing::new(alloc, answers)?;
    let turned = standing.turn(cx);
    if standing.here.is_short() {
        return Err(AllocError);
    }
    log.turn(standing.acceptor().events(), turned);
    if let Some(fallen) = standing.fall(cx) {
        recalled(fallen, cx, log);
    }
    Ok(())
}

fn told(
    task: &MockTask,
    alloc: Global,
    answers: &[Answer],
    wanted: &[u8],
) -> Result<bool, AllocError> {
    let mut log = Log::new(alloc);
    task.enter(|cx| acted(alloc, cx, answers, &mut log))?;
    log.is(wanted)
}

/// Whether this happens: the acceptor is turned, over a listener that answers so, its worker ends by a fault, what that did not take is
/// taken back, it is put back in order, and the acceptor is turned again.
pub(crate) fn recalls<R: Given>(
    rt: &R,
    answers: &[Answer],
    wanted: &[u8],
) -> Result<bool, AllocError> {
    match MockTask::new(rt) {
        Ok(task) => told(&task, rt.alloc(), answers, wanted),
        Err(_) => Err(AllocError),
    }
}
