//! How a worker makes its services, and asks whether they are ready.
ghost use Rattle.std.specs.Prelude.{◌≡◌, ◌<◌, ℕ, length, slice_get, IfSome, IfNone, IsTrue, IsFalse, true, false, Err};
ghost use Rattle.futures.specs.Task.{Keeps};
ghost use Rattle.server_worker.specs.Standing.{AllMade, AreSlots, HasErred, IsMade, IsSlot, AtSlot, MadeOrWaits, fits, fits_at};
ghost use Rattle.worker_core.specs.declared.service_status.ServiceStatus.{ServiceStatus};

use crate::services::Services;
use crate::slot::Slot;
use futures::Future;
use futures::task::{Context, Poll};
use server_run::ServerServiceFactory;
use service_core::{Link, ServiceFactory};

// Polls the first making of the service of a token, if it wasn't made yet. An error comes in its place.
fn make_one<L, F>(
    factory: &F,
    slot: &mut Slot<
        <F::Factory as ServiceFactory<L>>::Future,
        <F::Factory as ServiceFactory<L>>::Service,
        <F::Factory as ServiceFactory<L>>::Error,
    >,
    token: usize,
    cx: &mut Context<'_>,
) -> Option<<F::Factory as ServiceFactory<L>>::InitError>
where
    L: Link,
    F: ServerServiceFactory<L>,
    requires slot { IsSlot F.Factory.Future.Future F.Factory.Service.Service F.Factory.Service.Future.may_stand
        (F.may_serve factory.now token) (F.may_leave factory.now token) (F.may_ready factory.now token) (F.may_init factory.now token) (F.may_make factory.now token) slot.old }
    ensures slot { IfNone result (IsSlot F.Factory.Future.Future F.Factory.Service.Service F.Factory.Service.Future.may_stand
        (F.may_serve factory.now token) (F.may_leave factory.now token) (F.may_ready factory.now token) (F.may_init factory.now token) (F.may_make factory.now token) slot.new) }
    ensures waits { IfNone result (MadeOrWaits slot.old slot.new) }
    ensures error { IfSome result (F.may_init factory.now token) }
    ensures unmade { IfSome result (λ _. ¬ IsMade (Some slot.old)) }
    ensures erred { HasErred (Some slot.new) → slot.old ≡ slot.new }
    ensures fits { (s : ServiceStatus) → fits s slot.old ≡ true → fits s slot.new ≡ true }
    ensures kept { Keeps cx.old cx.new }
{
    let Slot::Making(future) = slot else {
        return None;
    };
    match future.poll(cx) {
        Poll::Ready(Ok(service)) => {
            *slot = Slot::Made(service);
            None
        }
        Poll::Ready(Err(error)) => Some(error),
        Poll::Pending => None,
    }
}

// Polls the first making of each service that wasn't made yet, up to the first that is refused.
pub(crate) fn make_services<L, F>(
    factory: &F,
    slots: &mut Vec<
        Slot<
            <F::Factory as ServiceFactory<L>>::Future,
            <F::Factory as ServiceFactory<L>>::Service,
            <F::Factory as ServiceFactory<L>>::Error,
        >,
    >,
    cx: &mut Context<'_>,
) -> Option<(usize, <F::Factory as ServiceFactory<L>>::InitError)>
where
    L: Link,
    F: ServerServiceFactory<L>,
    requires slots { AreSlots F.Factory.Future.Future F.Factory.Service.Service F.Factory.Service.Future.may_stand
        (F.may_serve factory.now) (F.may_leave factory.now) (F.may_ready factory.now) (F.may_init factory.now) (F.may_make factory.now) slots.old.items }
    ensures slots { IfNone result (AreSlots F.Factory.Future.Future F.Factory.Service.Service F.Factory.Service.Future.may_stand
        (F.may_serve factory.now) (F.may_leave factory.now) (F.may_ready factory.now) (F.may_init factory.now) (F.may_make factory.now) slots.new.items) }
    ensures as_many { length slots.new.items ≡ length slots.old.items }
    ensures waits { IfNone result ((t : ℕ) → t < length slots.new.items → AtSlot MadeOrWaits (slice_get slots.old.items t) (slice_get slots.new.items t)) }
    ensures error { IfSome result (λ refused. (refused.0 < length slots.new.items) × F.may_init factory.now refused.0 refused.1) }
    ensures unmade { IfSome result (λ _. ¬ AllMade slots.old.items) }
    ensures erred { (t : ℕ) → HasErred (slice_get slots.new.items t) → slice_get slots.old.items t ≡ slice_get slots.new.items t }
    ensures fits { (t : ℕ) (s : ServiceStatus) → fits_at s (slice_get slots.old.items t) ≡ true → fits_at s (slice_get slots.new.items t) ≡ true }
    ensures kept { Keeps cx.old cx.new }
{
    for token in 0..slots.len() {
        if let Some(error) = make_one(factory, &mut slots[token], token, cx) {
            return Some((token, error));
        }
    }
    None
}

// Whether a service of each token was made.
fn all_made<Fut, S, E>(slots: &Vec<Slot<Fut, S, E>>) -> bool
    ensures yes { IsTrue result → AllMade slots.now.items }
    ensures no { IsFalse result → ¬ AllMade slots.now.items }
{
    for token in 0..slots.len() {
        if matches!(slots[token], Slot::Making(_)) {
            return false;
        }
    }
    true
}

impl<Fac, Fut, S, E> Services<Fac, Fut, S, E> {
    // Whether a service of each token was made.
    pub(crate) fn stand(&mut self) -> bool
        requires made { self.old.made ≡ true → AllMade self.old.slots.items }
        ensures yes { IsTrue result → (self.new.made ≡ true) × AllMade self.new.slots.items }
        ensures no { IsFalse result → (self.new.made ≡ false) × (¬ AllMade self.new.slots.items) }
        ensures slots { self.new.slots ≡ self.old.slots }
        ensures core { self.new.core ≡ self.old.core }
        ensures factories { self.new.factories ≡ self.old.factories }
    {
        if self.made {
            return true;
        }
        if !all_made(&self.slots) {
            return false;
        }
        self.made = true;
        true
    }
}
