//! The bookkeeping of an accept loop.
ghost use Rattle.std.specs.Prelude.{◌≡◌, ◌+◌, ◌-◌, ◌^◌, ◌<◌, ◌≤◌, ◌↔◌, ℕ, true, false, is_some, length, replicate, All, None, nat_eq, cond, slice_index, slice_set};
ghost use Rattle.std.specs.List.{list_all, range_with_len, IsDistinct};
ghost use Rattle.std.specs.FinSet as set;
ghost use Rattle.server_core.specs.Core.{fresh, held};
ghost use Rattle.server_core.specs.declared.event.Event.TheVariants.{Command as Told, Notice, Back, Got, Sent, RingFull, Faulted, Replaced, Retired, ListenerFailed, ListenerEnded};

use crate::availability::Availability;
use crate::command::Command;
use crate::event::Event;
use crate::turns::Turns;
use arrayvec::ArrayVec;
use std::marker::Model;

/// Which connection is where, and which worker gets the next one, as `actix-server`'s `Accept` keeps it beside its
/// sockets. Contracts see it as a `Core`.
///
/// Each connection that was given is done, out at one worker, or the one that waits; no other place loses or doubles it.
#[derive(Drop)]
pub struct AcceptCore {
    ended: ArrayVec<bool, 64>,
    failures: ArrayVec<u64, 64>,
    waiting: Option<usize>,
    turns: Turns,
    out: ArrayVec<u64, 512>,
    retired: Availability,
    given: u64,
    done: u64,
    paused: bool,
    stopping: Option<bool>,
}

impl Model for AcceptCore {
    ghost use Rattle.server_core.specs.Core.{Core, core_code};

    ghost Value = { Core };

    ghost coded = { core_code };

    ghost use Rattle.server_core.specs.Inside.{core_of, IsSound};

    ghost view = { core_of };

    ghost invariant = { IsSound };
}

// So many zeros.
fn zeros<const N: usize>(count: usize) -> ArrayVec<u64, N>
    requires { count ≤ N }
    ensures { result.items ≡ replicate count 0 }
{
    let mut counts = ArrayVec::new();
    for k in 0..count {
        counts.push(0);
    }
    counts
}

// So many listeners that aren't ended.
fn none_ended(listeners: usize) -> ArrayVec<bool, 64>
    requires { listeners ≤ 64 }
    ensures { result.items ≡ replicate listeners false }
{
    let mut ended = ArrayVec::new();
    for k in 0..listeners {
        ended.push(false);
    }
    ended
}

// Whether every worker below `workers` is retired.
fn none_left(retired: &Availability, workers: usize) -> bool
    ensures { result ≡ list_all (λ w. set.contains retired.now w) (range_with_len 0 workers) }
{
    (0..workers).all(|w| retired.holds(w))
}

// Moves a waiting connection to those that are done.
fn let_go(waiting: &mut Option<usize>, done: &mut u64)
    requires { done.old < 2 ^ 64 - 1 }
    ensures nothing { waiting.new ≡ None }
    ensures counted { done.new ≡ done.old + held waiting.old }
{
    if waiting.is_some() {
        *done += 1;
        *waiting = None;
    }
}

// Counts one more at w.
fn one_more(counts: &mut ArrayVec<u64, 512>, w: usize)
    requires within { w < length counts.old.items }
    requires fits { slice_index counts.old.items w < 2 ^ 64 - 1 }
    ensures { counts.new.items ≡ slice_set counts.old.items w (slice_index counts.old.items w + 1) }
{
    counts[w] += 1;
}

// Takes the mark of w, unless it has room that remains.
fn unmark_unless(remains: bool, turns: &mut Turns, w: usize)
    ensures { turns.new ≡ record turns.old { free = cond remains turns.old.free (set.remove turns.old.free w) } }
{
    if !remains {
        turns.unmark(w);
    }
}

// The events of workers and of the waiting connection.
impl AcceptCore {
    ghost use Rattle.server_core.specs.Core.{step, allowed};

    fn notice(&mut self, w: usize)
        requires { allowed self.old (Notice w) ≡ true }
        ensures { self.new ≡ step self.old (Notice w) }
    {
        self.turns.mark(w);
    }

    fn back(&mut self, w: usize)
        requires { allowed self.old (Back w) ≡ true }
        ensures { self.new ≡ step self.old (Back w) }
    {
        self.out[w] -= 1;
        self.done += 1;
    }

    fn got(&mut self, t: usize)
        requires { allowed self.old (Got t) ≡ true }
        ensures { self.new ≡ step self.old (Got t) }
    {
        self.waiting = Some(t);
        self.given += 1;
        self.failures[t] = 0;
    }

    fn sent(&mut self, w: usize, remains: bool)
        requires { allowed self.old (Sent w remains) ≡ true }
        ensures { self.new ≡ step self.old (Sent w remains) }
    {
        self.waiting = None;
        one_more(&mut self.out, w);
        self.turns.go_on_behind(w);
        unmark_unless(remains, &mut self.turns, w);
    }

    fn ring_full(&mut self, w: usize)
        requires { allowed self.old (RingFull w) ≡ true }
        ensures { self.new ≡ step self.old (RingFull w) }
    {
        self.turns.go_on_behind(w);
        self.turns.unmark(w);
    }

    fn faulted(&mut self, w: usize)
        requires { allowed self.old (Faulted w) ≡ true }
        ensures { self.new ≡ step self.old (Faulted w) }
    {
        self.turns.remove(w);
    }

    fn replaced(&mut self, w: usize)
        requires { allowed self.old (Replaced w) ≡ true }
        ensures { self.new ≡ step self.old (Replaced w) }
    {
        self.turns.add(w);
    }

    fn retire(&mut self, w: usize)
        requires { allowed self.old (Retired w) ≡ true }
        ensures { self.new ≡ step self.old (Retired w) }
    {
        self.retired.set_available(w, true);
        if none_left(&self.retired, self.out.len()) {
            let_go(&mut self.waiting, &mut self.done);
        }
    }
}

// Commands, and the events of listeners.
impl AcceptCore {
    ghost use Rattle.server_core.specs.Core.{step, allowed};

    fn command(&mut self, command: Command)
        ensures { self.new ≡ step self.old (Told command) }
    {
        match command {
            Command::Pause => self.paused = true,
            Command::Resume => self.paused = false,
            Command::Stop { graceful } => self.stop(graceful),
        }
    }

    fn listener_failed(&mut self, t: usize)
        requires { allowed self.old (ListenerFailed t) ≡ true }
        ensures { self.new ≡ step self.old (ListenerFailed t) }
    {
        self.failures[t] = self.failures[t].saturating_add(1);
    }

    fn listener_ended(&mut self, t: usize)
        requires { allowed self.old (ListenerEnded t) ≡ true }
        ensures { self.new ≡ step self.old (ListenerEnded t) }
    {
        self.ended[t] = true;
    }
}

impl AcceptCore {
    ghost use Rattle.server_core.specs.Core.{step};
    ghost use Rattle.server_core.specs.declared.command.Command.TheVariants.{Stop};

    fn stop(&mut self, graceful: bool)
        ensures { self.new ≡ step self.old (Told (Stop graceful)) }
    {
        if self.stopping.is_none() {
            self.stopping = Some(graceful);
        }
        let_go(&mut self.waiting, &mut self.done);
    }
}

// Where an event is allowed.
impl AcceptCore {
    ghost use Rattle.server_core.specs.Core.{first_free, is_at, is_open, is_worker, may_place, may_return, may_take};

    fn is_worker(&self, w: usize) -> bool
        ensures { result ≡ is_worker self.now w }
    {
        w < self.out.len()
    }

    fn is_open(&self, t: usize) -> bool
        ensures { result ≡ is_open self.now t }
    {
        t < self.ended.len() && !self.ended[t]
    }

    fn may_take(&self) -> bool
        ensures { result ≡ may_take self.now }
    {
        self.waiting.is_none() && !self.paused && self.stopping.is_none() && self.given < 1 << 60
    }

    // The free worker whose turn it is.
    fn first_free(&self) -> Option<usize>
        ensures { result ≡ first_free self.now }
    {
        self.turns.first(&Availability::default())
    }

    // Whether it is w's turn.
    fn is_first(&self, w: usize) -> bool
        ensures { result ≡ is_at (first_free self.now) w }
    {
        match self.first_free() {
            Some(first) => first == w,
            None => false,
        }
    }

    fn may_place(&self, w: usize) -> bool
        ensures { result ≡ may_place self.now w }
    {
        if !self.is_worker(w) {
            return false;
        }
        if self.waiting.is_none() {
            return false;
        }
        self.is_first(w)
    }

    fn may_return(&self, w: usize) -> bool
        ensures { result ≡ may_return self.now w }
    {
        if w >= self.out.len() {
            return false;
        }
        !self.turns.has(w) && !self.retired.holds(w) && self.out[w] == 0
    }
}

impl AcceptCore {
    ghost use Rattle.std.specs.Prelude.{IfSome};
    ghost use Rattle.server_core.specs.Core.{IsKept, all_retired, allowed, picked, step};

    /// A core over `workers` workers, which are all in order and free, and `listeners` listeners.
    pub fn new(workers: usize, listeners: usize) -> Self
        requires some_workers { 1 ≤ workers }
        requires most_workers { workers ≤ 512 }
        requires some_listeners { 1 ≤ listeners }
        requires most_listeners { listeners ≤ 64 }
        ensures value { result ≡ fresh workers listeners }
        ensures kept { IsKept result }
    {
        AcceptCore {
            ended: none_ended(listeners),
            failures: zeros(listeners),
            waiting: None,
            turns: Turns::new(workers),
            out: zeros(workers),
            retired: Availability::default(),
            given: 0,
            done: 0,
            paused: false,
            stopping: None,
        }
    }

    /// Whether the event may happen now.
    pub fn allows(&self, event: &Event) -> bool
        ensures { result ≡ allowed self.now event.now }
    {
        match *event {
            Event::Command(_) => true,
            Event::Notice(w) => self.is_worker(w),
            Event::Back(w) => self.is_worker(w) && self.out[w] > 0,
            Event::Got(t) => self.is_open(t) && self.may_take(),
            Event::Sent { worker, remains: _ } => self.may_place(worker),
            Event::RingFull(w) => self.may_place(w),
            Event::Faulted(w) => self.is_worker(w) && self.turns.has(w),
            Event::Replaced(w) => self.may_return(w),
            Event::Retired(w) => self.may_return(w),
            Event::ListenerFailed(t) => self.is_open(t),
            Event::ListenerEnded(t) => self.is_open(t),
        }
    }

    /// Carries an event out, which must be allowed. The workers and the listeners stay as many, and each connection that was
    /// given is still in one place.
    pub fn step(&mut self, event: Event)
        requires { allowed self.old event ≡ true }
        ensures value { self.new ≡ step self.old event }
        ensures workers { length self.new.out ≡ length self.old.out }
        ensures listeners { length self.new.ended ≡ length self.old.ended }
        ensures kept { IsKept self.new }
    {
        let _given = self.given;
        self.carry_out(event);
    }

    fn carry_out(&mut self, event: Event)
        requires { allowed self.old event ≡ true }
        ensures { self.new ≡ step self.old event }
    {
        match event {
            Event::Command(command) => self.command(command),
            Event::Notice(w) => self.notice(w),
            Event::Back(w) => self.back(w),
            Event::Got(t) => self.got(t),
            Event::Sent { worker, remains } => self.sent(worker, remains),
            Event::RingFull(w) => self.ring_full(w),
            Event::Faulted(w) => self.faulted(w),
            Event::Replaced(w) => self.replaced(w),
            Event::Retired(w) => self.retire(w),
            Event::ListenerFailed(t) => self.listener_failed(t),
            Event::ListenerEnded(t) => self.listener_ended(t),
        }
    }

    /// The worker that gets the next connection: the first one, from `next` on and round, that is marked free and isn't in
    /// `passed`. `None` says that every free worker is in `passed`.
    pub fn pick(&self, passed: &Availability) -> Option<usize>
        ensures first { result ≡ picked self.now passed.now }
        ensures none { (result ≡ None) ↔ ((w : ℕ) → set.contains self.now.free w ≡ true → set.contains passed.now w ≡ true) }
        ensures number { IfSome result (λ w. w < length self.now.out) }
    {
        self.turns.first(passed)
    }

    /// Whether no connection is taken until `Command::Resume`.
    pub fn paused(&self) -> bool
        ensures { result ≡ self.now.paused }
    {
        self.paused
    }

    /// Whether a stop came.
    pub fn stopping(&self) -> bool
        ensures { result ≡ is_some self.now.stopping }
    {
        self.stopping.is_some()
    }

    /// Whether a connection waits for a worker.
    pub fn waiting(&self) -> bool
        ensures { result ≡ is_some self.now.waiting }
    {
        self.waiting.is_some()
    }

    /// Whether every worker is retired.
    pub fn all_retired(&self) -> bool
        ensures { result ≡ all_retired self.now }
    {
        none_left(&self.retired, self.out.len())
    }

    /// How many connections the worker `w` has.
    pub fn out(&self, w: usize) -> u64
        requires { w < length self.now.out }
        ensures { result ≡ slice_index self.now.out w }
    {
        self.out[w]
    }

    /// How often the listener `t` failed since its last connection.
    pub fn failures(&self, t: usize) -> u64
        requires { t < length self.now.ended }
        ensures { result ≡ slice_index self.now.failures t }
    {
        self.failures[t]
    }

    /// The workers that get connections in turn, each once.
    pub fn order(&self) -> &[u16]
        ensures value { result.now ≡ self.now.order }
        ensures numbers { All (λ w. w < length self.now.out) result.now }
        ensures distinct { IsDistinct nat_eq result.now }
    {
        self.turns.order()
    }

    /// The place in `order` that is asked first, or 0 where the order is empty.
    pub fn next(&self) -> usize
        ensures value { result ≡ self.now.next }
        ensures place { 0 < result → result < length self.now.order }
    {
        self.turns.next()
    }
}
