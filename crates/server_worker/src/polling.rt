//! How a worker polls its live connections.
ghost use Rattle.std.specs.Prelude.{◌≡◌, ◌+◌, ◌<◌, ◌≤◌, ℕ, None, Some, vec_len, false, take, true, IfSome, IfNone, slice_get, slice_index_or};
ghost use Rattle.futures.specs.Task.{Keeps};
ghost use Rattle.service_core.specs.Counts.{risen};
ghost use Rattle.service_core.specs.Shown.{wait_count};
ghost use Rattle.server_run.specs.Delivery.{ComesBack};
ghost use Rattle.server_run.specs.Outcome.{is_lost, is_stopped};
ghost use Rattle.server_worker.specs.Due.{IsMoved, PolledDue};
ghost use Rattle.server_worker.specs.Polled.{PolledFrom};
ghost use Rattle.server_worker.specs.Sound.{IsSound, Serves};
ghost use Rattle.server_worker.specs.Waited.{AreAmong, KeepsOthers, NoneWaitsFor, NoneWaitsForAny};
ghost use Rattle.server_worker.specs.Ending.{EndsAt, IsSameConnection};
ghost use Rattle.server_worker.specs.declared.connections.Connections.{Connections};
ghost use Rattle.server_worker.specs.declared.live.Live.{Live};

use crate::connections::Connections;
use crate::finished::Finished;
use crate::live::{Live, SLOTS};
use futures::Future;
use futures::task::{Context, Poll};
use server_jobs::Note;
use server_run::{Entry, Outcome, ServerServiceFactory};
use service_core::{Ended, Link, LinkHolder, Service, ServiceFactory};

// Polls a live connection. Its link comes back where it has ended.
pub(crate) fn poll_one<L, F>(
    factory: &F,
    live: &mut Live<L, <<F::Factory as ServiceFactory<L>>::Service as Service<L>>::Future>,
    cx: &mut Context<'_>,
) -> Option<Finished<L>>
where
    L: Link,
    F: ServerServiceFactory<L>,
    requires serves { Serves F.Factory.Service.Future.Future F.Factory.Service.Future.may_stand (F.may_serve factory.now) (F.may_leave factory.now) live.old }
    ensures same { IsSameConnection live.old live.new }
    ensures serves { IfNone result (Serves F.Factory.Service.Future.Future F.Factory.Service.Future.may_stand (F.may_serve factory.now) (F.may_leave factory.now) live.new) }
    ensures waits { IfNone result (wait_count live.new.future ≡ risen (wait_count live.old.future)) }
    ensures back { IfSome result (λ f. ComesBack (F.may_serve factory.now live.old.token) (F.may_leave factory.now live.old.token) live.old.given.value f.link f.outcome) }
    ensures ended { IfSome result (λ f. is_stopped f.outcome ≡ false) }
    ensures unlost { IfSome result (λ f. is_lost f.outcome ≡ false) }
    ensures identity { IfSome result (λ f. L.identity f.link ≡ L.identity live.old.given.value) }
    ensures kept { Keeps cx.old cx.new }
{
    match live.future.poll(cx) {
        Poll::Ready(Ok(Ended { link, how })) => Some(Finished {
            link,
            outcome: Outcome::of(how),
        }),
        Poll::Ready(Err(_)) => unreachable!(),
        Poll::Pending => {
            live.slot = live.future.inner().waits_for();
            None
        }
    }
}

impl<L: Link, Fut: Drop> Connections<L, Fut> {
    // The live connection at a place has ended, and is kept for handing back.
    fn end(&mut self, at: usize, finished: Finished<L>)
        requires inside { at < vec_len self.old.live }
        requires none_rest { self.old.resting ≡ 0 }
        ensures ends { (c : Live L Fut) → c ≡ slice_index_or self.old.live.items at c → EndsAt self.old self.new at c finished }
        ensures none_rest { self.new.resting ≡ 0 }
        ensures front { take at self.new.live.items ≡ take at self.old.live.items }
        ensures berths { self.new.berths ≡ self.old.berths }
    {
        let Live {
            future: _,
            serial,
            token,
            place,
            given: _,
            slot: _,
        } = self.live.swap_remove(at);
        let Finished { link, outcome } = finished;
        self.owed.push_back_reserved(Note::Back(Entry {
            serial,
            token,
            place,
            link,
            outcome,
        }));
    }
}

// Polls the live connection at a place, behind which all were polled.
fn poll_at<L, F>(
    factory: &F,
    hand: &mut Connections<L, <<F::Factory as ServiceFactory<L>>::Service as Service<L>>::Future>,
    listeners: usize,
    at: usize,
    cx: &mut Context<'_>,
)
where
    L: Link,
    F: ServerServiceFactory<L>,
    requires inside { at < vec_len hand.old.live }
    requires none_rest { hand.old.resting ≡ 0 }
    requires sound { IsSound F.Factory.Service.Future.Future F.Factory.Service.Future.may_stand (F.may_serve factory.now) (F.may_leave factory.now) (F.may_make factory.now) listeners hand.old }
    ensures polls { (first : Connections L F.Factory.Service.Future)
        → PolledFrom F.Factory.Service.Future.Future F.Factory.Service.Future.may_stand (F.may_serve factory.now) (F.may_leave factory.now) (F.may_make factory.now) listeners L.identity first hand.old (at + 1)
        → PolledFrom F.Factory.Service.Future.Future F.Factory.Service.Future.may_stand (F.may_serve factory.now) (F.may_leave factory.now) (F.may_make factory.now) listeners L.identity first hand.new at }
    ensures none_rest { hand.new.resting ≡ 0 }
    ensures front { take at hand.new.live.items ≡ take at hand.old.live.items }
    ensures berths { hand.new.berths ≡ hand.old.berths }
    ensures kept { Keeps cx.old cx.new }
{
    match poll_one(factory, &mut hand.live[at], cx) {
        Some(finished) => hand.end(at, finished),
        None => {}
    }
}

// Polls each live connection from the place on once. Those that end are kept for handing back.
fn poll_from<L, F>(
    factory: &F,
    hand: &mut Connections<L, <<F::Factory as ServiceFactory<L>>::Service as Service<L>>::Future>,
    listeners: usize,
    from: usize,
    cx: &mut Context<'_>,
)
where
    L: Link,
    F: ServerServiceFactory<L>,
    requires within { from ≤ vec_len hand.old.live }
    requires none_rest { hand.old.resting ≡ 0 }
    requires sound { IsSound F.Factory.Service.Future.Future F.Factory.Service.Future.may_stand (F.may_serve factory.now) (F.may_leave factory.now) (F.may_make factory.now) listeners hand.old }
    ensures polls { PolledFrom F.Factory.Service.Future.Future F.Factory.Service.Future.may_stand (F.may_serve factory.now) (F.may_leave factory.now) (F.may_make factory.now) listeners L.identity hand.old hand.new from }
    ensures none_rest { hand.new.resting ≡ 0 }
    ensures front { take from hand.new.live.items ≡ take from hand.old.live.items }
    ensures berths { hand.new.berths ≡ hand.old.berths }
    ensures kept { Keeps cx.old cx.new }
{
    let mut at = hand.live.len();
    while at > from {
        at -= 1;
        poll_at(factory, hand, listeners, at, cx);
    }
}

// Whether there is a place for the slot, after it was made where it lacked.
fn has_berth(berths: &mut Vec<usize>, slot: usize) -> bool
    ensures same { KeepsOthers berths.old.items berths.new.items None }
    ensures within { result ≡ true → slot < vec_len berths.new }
    ensures stood { slot < vec_len berths.old → result ≡ true }
{
    if slot < berths.len() {
        return true;
    }
    if slot >= SLOTS as usize {
        return false;
    }
    berths.resize(slot + 1, 0).is_ok()
}

// Another place stands at the slot now, unless memory lacks or there is no such slot.
fn set_berth(berths: &mut Vec<usize>, slot: u32, at: usize) -> bool
    ensures set { result ≡ true → slice_get berths.new.items slot ≡ Some at }
    ensures others { KeepsOthers berths.old.items berths.new.items (Some slot) }
    ensures same { result ≡ false → KeepsOthers berths.old.items berths.new.items None }
    ensures stood { slot < vec_len berths.old → result ≡ true }
{
    if !has_berth(berths, slot as usize) {
        return false;
    }
    berths[slot as usize] = at;
    true
}

// The same, where there is a slot.
fn move_berth(berths: &mut Vec<usize>, slot: Option<u32>, at: usize)
    ensures { (s : ℕ) → slot ≡ Some s → s < vec_len berths.old → (slice_get berths.new.items s ≡ Some at) × KeepsOthers berths.old.items berths.new.items slot }
{
    if let Some(slot) = slot {
        set_berth(berths, slot, at);
    }
}

impl<L: Link, Fut: Drop> Connections<L, Fut> {
    // Whether the one at the place rests and waits for the slot.
    fn waits_at(&self, at: usize, slot: u32) -> bool
        ensures rests { result ≡ true → at < self.now.resting }
        ensures other { result ≡ false → (c : Live L Fut) → at < self.now.resting → slice_get self.now.live.items at ≡ Some c → c.slot ≡ Some slot → ⊥ }
    {
        if at >= self.resting {
            return false;
        }
        match self.live[at].slot {
            Some(other) => other == slot,
            None => false,
        }
    }

    // The place of the one that rests and waits for the slot.
    fn berth(&self, slot: u32) -> Option<usize>
        ensures some { IfSome result (λ at. (at < self.now.resting) × (slice_get self.now.berths.items slot ≡ Some at)) }
        ensures none { IfNone result (NoneWaitsFor slot (take self.now.resting self.now.live.items)) }
    {
        if slot as usize >= self.berths.len() {
            return None;
        }
        let at = self.berths[slot as usize];
        if self.waits_at(at, slot) {
            Some(at)
        } else {
            None
        }
    }

    // The one at the place was polled, and goes to those that rest where it waits for news alone.
    fn settle_at(&mut self, at: usize)
        requires inside { at < vec_len self.old.live }
        requires behind { self.old.resting ≤ at }
        ensures moves { IsMoved self.old self.new }
        ensures one_more { self.new.resting ≤ self.old.resting + 1 }
        ensures as_many { vec_len self.new.live ≡ vec_len self.old.live }
    {
        let live = &self.live[at];
        let Some(slot) = live.slot else {
            return;
        };
        if live.future.waits() == 0 {
            return;
        }
        if let Some(_) = self.berth(slot) {
            return;
        }
        if set_berth(&mut self.berths, slot, self.resting) {
            self.live.swap(self.resting, at);
            self.resting += 1;
        }
    }

    // Those that were polled and wait for news alone go to those that rest.
    fn settle(&mut self)
        ensures { IsMoved self.old self.new }
    {
        for at in self.resting..self.live.len() {
            self.settle_at(at);
        }
    }

    // There is news of the slot: the one that rests and waits for it is to be polled.
    fn wake(&mut self, slot: u32)
        ensures moves { IsMoved self.old self.new }
        ensures among { AreAmong (take self.new.resting self.new.live.items) (take self.old.resting self.old.live.items) }
        ensures heard { NoneWaitsFor slot (take self.new.resting self.new.live.items) }
    {
        if let Some(at) = self.berth(slot) {
            self.call_up_at(at);
        }
    }

    // The one that rests at the place is to be polled. The last that rests takes its place.
    fn call_up_at(&mut self, at: usize)
        requires rests { at < self.old.resting }
        ensures moves { IsMoved self.old self.new }
        ensures among { AreAmong (take self.new.resting self.new.live.items) (take self.old.resting self.old.live.items) }
        ensures left { (slot : ℕ) → slice_get self.old.berths.items slot ≡ Some at → NoneWaitsFor slot (take self.new.resting self.new.live.items) }
    {
        self.resting -= 1;
        move_berth(&mut self.berths, self.live[self.resting].slot, at);
        self.live.swap(at, self.resting);
    }

    // Those that rest and wait for one of the slots are to be polled, or all.
    fn call_up(&mut self, all: bool, news: &[u32])
        ensures moves { IsMoved self.old self.new }
        ensures all { all ≡ true → self.new.resting ≡ 0 }
        ensures unheard { NoneWaitsForAny news.now (take self.new.resting self.new.live.items) }
    {
        if all {
            self.resting = 0;
            return;
        }
        self.wake_each(news);
    }

    fn wake_each(&mut self, slots: &[u32])
        ensures moves { IsMoved self.old self.new }
        ensures unheard { NoneWaitsForAny slots.now (take self.new.resting self.new.live.items) }
    {
        for at in 0..slots.len() {
            self.wake(slots[at]);
        }
    }
}

// Polls those live connections once that don't rest, of which there is news, or all. Those that end are kept for handing back.
pub(crate) fn poll_live<L, F>(
    factory: &F,
    hand: &mut Connections<L, <<F::Factory as ServiceFactory<L>>::Service as Service<L>>::Future>,
    listeners: usize,
    all: bool,
    news: &[u32],
    cx: &mut Context<'_>,
)
where
    L: Link,
    F: ServerServiceFactory<L>,
    requires sound { IsSound F.Factory.Service.Future.Future F.Factory.Service.Future.may_stand (F.may_serve factory.now) (F.may_leave factory.now) (F.may_make factory.now) listeners hand.old }
    ensures polls { PolledDue F.Factory.Service.Future.Future F.Factory.Service.Future.may_stand (F.may_serve factory.now) (F.may_leave factory.now) (F.may_make factory.now) listeners L.identity all news.now hand.old hand.new }
    ensures kept { Keeps cx.old cx.new }
{
    hand.call_up(all, news);
    let from = hand.resting;
    hand.resting = 0;
    poll_from(factory, hand, listeners, from, cx);
    hand.resting = from;
    hand.settle();
}
