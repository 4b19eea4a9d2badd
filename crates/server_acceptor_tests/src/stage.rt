//! An acceptor beside workers that a test plays.
ghost use Rattle.std.specs.Prelude.{◌≡◌, ◌≤◌, ℕ, IfOk, length, slice_index_or};
ghost use Rattle.server_run.specs.Delivery.{given_at};
ghost use Rattle.server_acceptor.specs.Acceptors.{listeners_of, out_of, places_of, workers_of};

use crate::act::Act;
use crate::answer::{Answer, listeners};
use crate::book::Book;
use crate::log::Log;
use crate::plan::Plan;
use crate::rings::Rings;
use crate::staff::Staff;
use crate::tally::{count_got, is_each_once};
use futures::task::Context;
use futures::test::MockTask;
use rtrb::{Consumer, Producer};
use server_acceptor::{AcceptTurn, Acceptor};
use server_commands::{CommandStep, ScriptCommands};
use server_jobs::{Note, Parcel, StepClock};
use server_run::{Done, Listener, MemoryLink, MemoryListener};
use std::alloc::{AllocError, Global};

/// An acceptor, its listeners, the workers' ends of its rings, and what happened.
#[derive(Drop)]
pub(crate) struct Stage {
    alloc: Global,
    acceptor: Acceptor<MemoryLink>,
    listeners: Vec<MemoryListener>,
    commands: ScriptCommands,
    clock: StepClock,
    book: Book,
    staff: Staff,
    workers: usize,
    log: Log,
    ghost as_many: { length listeners.items ≡ listeners_of acceptor },
    ghost given: { (t : ℕ) → slice_index_or (places_of acceptor) t 0 ≤ given_at ⟦<MemoryListener as Listener>⟧.given listeners.items t },
    ghost spare: { out_of acceptor ≤ ⟦<Book as Done<MemoryLink>>⟧.spare book },
    ghost as_many_workers: { workers_of acceptor ≡ workers },
}

// An acceptor at its start. The plan has to fit.
fn begun(
    alloc: Global,
    plan: &Plan,
    parcels: Vec<Producer<Parcel<MemoryLink>>>,
    notes: Vec<Consumer<Note<MemoryLink>>>,
    listeners: usize,
) -> Result<Acceptor<MemoryLink>, AllocError>
    ensures listeners { IfOk result (λ a. listeners_of a ≡ listeners) }
    ensures workers { IfOk result (λ a. workers_of a ≡ length parcels.items) }
    ensures places { IfOk result (λ a. (t : ℕ) → slice_index_or (places_of a) t 0 ≡ 0) }
    ensures out { IfOk result (λ a. out_of a ≡ 0) }
{
    let has_workers = !parcels.is_empty() && parcels.len() <= 512;
    let has_listeners = 0 < listeners && listeners <= 64;
    if !has_workers || !has_listeners || notes.len() != parcels.len() {
        return Err(AllocError);
    }
    if plan.limit == 0 || plan.retry_limit == 0 {
        return Err(AllocError);
    }
    Acceptor::new(
        alloc,
        parcels,
        notes,
        listeners,
        plan.limit,
        plan.retry_limit,
        30,
    )
}

// Commands that come so.
fn scripted(alloc: Global, steps: &[CommandStep]) -> Result<ScriptCommands, AllocError> {
    let mut script = Vec::new(alloc);
    for step in steps {
        script.push(*step)?;
    }
    Ok(ScriptCommands::new(alloc, script))
}

// A stage of these parts.
fn set(
    alloc: Global,
    plan: &Plan,
    listeners: Vec<MemoryListener>,
    commands: ScriptCommands,
    there: Rings<Parcel<MemoryLink>>,
    back: Rings<Note<MemoryLink>>,
) -> Result<Stage, AllocError> {
    let workers = there.into.len();
    let acceptor = begun(alloc, plan, there.into, back.out, listeners.len())?;
    Ok(Stage {
        alloc,
        acceptor,
        listeners,
        commands,
        clock: StepClock::new(0, plan.step),
        book: Book::new(alloc, plan.rooms),
        staff: Staff {
            alloc,
            parcels: there.out,
            notes: back.into,
        },
        workers,
        log: Log::new(alloc),
    })
}

// How the acceptor is turned.
impl Stage {
    /// A stage by a plan, with commands that come so, and listeners that answer so.
    pub(crate) fn new(
        alloc: Global,
        plan: &Plan,
        steps: &[CommandStep],
        answers: &[Answer],
    ) -> Result<Stage, AllocError> {
        let commands = scripted(alloc, steps)?;
        let listeners = listeners(alloc, plan.listeners, answers)?;
        let there = Rings::new(alloc, plan.workers, plan.places)?;
        let back = Rings::new(alloc, plan.workers, plan.places)?;
        set(alloc, plan, listeners, commands, there, back)
    }

    // One turn. Without memory nothing more is told.
    fn turn(&mut self, cx: &mut Context<'_>) -> AcceptTurn {
        let turned = self.acceptor.turn(
            cx,
            &mut self.listeners,
            &mut self.commands,
            &mut self.clock,
            &mut self.book,
        );
        if self.book.is_short() {
            self.log.lack_memory();
        }
        turned
    }

    // One turn, as a poll of the task.
    fn turn_in(&mut self, task: &MockTask) -> AcceptTurn {
        task.enter(|cx| self.turn(cx))
    }

    // One turn, by its events.
    fn show_turn(&mut self, task: &MockTask) {
        let turned = self.turn_in(task);
        self.log.turn(self.acceptor.events(), turned);
    }

    // One turn, by the numbers of connections that came, of events, and of those for which there is still room.
    fn count_turn(&mut self, task: &MockTask) {
        self.turn_in(task);
        let events = self.acceptor.events();
        let room = self.acceptor.event_room();
        self.log.before("turn, got ", count_got(events));
        self.log.before(" in ", events.len() as u64);
        self.log.before(", room for ", room as u64);
        self.log.word("\n");
    }

    // Turns until it does not go on, and lets each worker hand back what it has between turns.
    fn turn_out(&mut self, task: &MockTask) {
        for _ in 0..1_000_u32 {
            let turned = self.turn_in(task);
            if turned != AcceptTurn::Going {
                self.log.turned(turned);
                return;
            }
            self.staff.hand_all_back();
        }
    }

    // Places what waits by hand, where there is room for the events.
    fn place(&mut self) {
        let from = self.acceptor.events().len();
        if self.acceptor.event_room() < 2 * self.workers + 1 {
            return;
        }
        let placed = self.acceptor.place();
        self.log.word("place");
        self.log.events(self.acceptor.events(), from);
        self.log.placed(placed);
        self.log.word("\n");
    }

    // A worker leaves the order.
    fn leave(&mut self, w: usize) {
        if w >= self.workers {
            return;
        }
        self.acceptor.leave::<MemoryListener, Book>(w);
        self.log.before("leave ", w as u64);
        self.log.word("\n");
    }

    // A worker is put back in the order.
    fn replace(&mut self, w: usize) {
        if w >= self.workers {
            return;
        }
        let replaced = self.acceptor.replace::<MemoryListener, Book>(w);
        self.log.before("replace ", w as u64);
        self.log.answer(replaced);
    }

    // A worker is retired.
    fn retire(&mut self, w: usize) {
        if w >= self.workers {
            return;
        }
        let last = self
            .acceptor
            .retire::<MemoryListener, Book>(w, &mut self.book);
        self.log.before("retire ", w as u64);
        self.log.answer(last);
    }

    // Writes down whether nothing is left to do.
    fn show_done(&mut self) {
        let done = self.acceptor.is_done();
        self.log.word("done");
        self.log.answer(done);
    }

    // Writes down whether each of so many connections of each listener came back once.
    fn show_once(&mut self, links: u64) {
        match is_each_once(self.alloc, self.book.entries(), self.listeners.len(), links) {
            Ok(true) => self.log.word(", each once"),
            Ok(false) => self.log.word(", not each once"),
            Err(_) => self.log.lack_memory(),
        }
    }

    fn act(&mut self, task: &MockTask, act: Act) {
        match act {
            Act::Turn => self.show_turn(task),
            Act::Count => self.count_turn(task),
            Act::Rounds => self.turn_out(task),
            Act::Place => self.place(),
            Act::Worker(w, deed) => self.staff.act(w, deed, &mut self.log),
            Act::Leave(w) => self.leave(w),
            Act::Replace(w) => self.replace(w),
            Act::Retire(w) => self.retire(w),
            Act::Done => self.show_done(),
            Act::Entries => self.log.entries(self.book.entries()),
            Act::Once(links) => self.show_once(links),
        }
    }

    /// Whether this happens where all of that is done, one after the other.
    pub(crate) fn tells(
        &mut self,
        task: &MockTask,
        acts: &[Act],
        wanted: &[u8],
    ) -> Result<bool, AllocError> {
        for act in acts {
            self.act(task, *act);
        }
        self.log.is(wanted)
    }
}
