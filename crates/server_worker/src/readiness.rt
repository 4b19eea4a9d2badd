//! How a worker asks its services whether they are ready, and makes anew those that erred.
ghost use Rattle.std.specs.Prelude.{◌≡◌, ◌≢◌, ◌<◌, ℕ, length, slice_get, slice_set, Err, IfNone, IfSome, IsFalse, Some};
ghost use Rattle.futures.specs.declared.task.Poll.TheVariants.{Ready as PollReady};
ghost use Rattle.futures.specs.Task.{Keeps};
ghost use Rattle.worker_core.specs.Statuses.{is_asked};
ghost use Rattle.worker_core.specs.WorkerCore.{MayAsk, MayRestart, after_ready, after_restarted, status_of};
ghost use Rattle.worker_core.specs.declared.ready_answer.ReadyAnswer.TheVariants as answers;
ghost use Rattle.worker_core.specs.declared.service_status.ServiceStatus.TheVariants as status;
ghost use Rattle.server_run.specs.Creating.{Stands};
ghost use Rattle.server_worker.specs.Checking.{Checks, IsChecked, IsDown, IsRemaking, IsStanding};
ghost use Rattle.server_worker.specs.Standing.{AllMade, AreFactories, AreSlots, IsMade, IsSlot, making_waits};
ghost use Rattle.server_worker.specs.Asking.{ChecksUpTo};
ghost use Rattle.server_worker.specs.Changes.{HasChanged, HasYielded};
ghost use Rattle.server_worker.specs.declared.checked.Checked.TheVariants.{Refused, Stayed};
ghost use Rattle.server_worker.specs.declared.slot.Slot.TheVariants.{Failed, Made};

use crate::checked::Checked;
use crate::fault::Fault;
use crate::services::Services;
use crate::slot::Slot;
use futures::Future;
use futures::task::{Context, Poll};
use server_run::ServerServiceFactory;
use service_core::{Link, Service, ServiceFactory, Watched};
use std::mem;
use worker_core::ReadyAnswer;

impl<Fac, Fut: Drop, S: Drop, E: Drop> Services<Fac, Fut, S, E> {
    // Takes the answer of a service, which stands, and did not err.
    fn take_answer(&mut self, token: usize, answer: ReadyAnswer)
        requires inside { token < length self.old.slots.items }
        requires stands { IsStanding (slice_get self.old.slots.items token) }
        requires no_error { answer ≡ answers.Err → ⊥ }
        ensures allowed { MayAsk self.old.core token }
        ensures core { self.new.core ≡ after_ready self.old.core token answer }
        ensures slots { self.new.slots ≡ self.old.slots }
        ensures made { self.new.made ≡ self.old.made }
        ensures factories { self.new.factories ≡ self.old.factories }
    {
        self.core.ready(token, answer);
    }

    // A service, which stands, erred so. It is to be made anew.
    fn fail(&mut self, token: usize, error: E)
        requires inside { token < length self.old.slots.items }
        requires stands { IsStanding (slice_get self.old.slots.items token) }
        ensures allowed { MayAsk self.old.core token }
        ensures core { self.new.core ≡ after_ready self.old.core token answers.Err }
        ensures slots { self.new.slots.items ≡ slice_set self.old.slots.items token (Failed error) }
        ensures made { self.new.made ≡ self.old.made }
        ensures factories { self.new.factories ≡ self.old.factories }
    {
        self.core.ready(token, ReadyAnswer::Err);
        self.slots[token] = Slot::Failed(error);
    }

    // A service that erred was made anew.
    fn stand_again(&mut self, token: usize, service: S)
        requires inside { token < length self.old.slots.items }
        requires remaking { IsRemaking (slice_get self.old.slots.items token) }
        ensures allowed { MayRestart self.old.core token }
        ensures core { self.new.core ≡ after_restarted self.old.core token }
        ensures slots { self.new.slots.items ≡ slice_set self.old.slots.items token (Made service) }
        ensures made { self.new.made ≡ self.old.made }
        ensures factories { self.new.factories ≡ self.old.factories }
    {
        self.core.restarted(token);
        self.slots[token] = Slot::Made(service);
    }
}

// Whether a service is ready.
fn ask<L, F>(
    factory: &F,
    service: &<F::Factory as ServiceFactory<L>>::Service,
    token: usize,
    cx: &mut Context<'_>,
) -> Poll<Result<(), <F::Factory as ServiceFactory<L>>::Error>>
where
    L: Link,
    F: ServerServiceFactory<L>,
    requires stands { Stands F.Factory.Service.Service F.Factory.Service.Future.may_stand (F.may_serve factory.now token)
        (F.may_leave factory.now token) (F.may_ready factory.now token) service.now }
    ensures answer { F.may_ready factory.now token result }
    ensures kept { Keeps cx.old cx.new }
{
    service.poll_ready(cx)
}

// Asks a service that stands. True says that it erred.
fn ask_one<L, F>(
    factory: &F,
    services: &mut Services<
        F::Factory,
        <F::Factory as ServiceFactory<L>>::Future,
        <F::Factory as ServiceFactory<L>>::Service,
        <F::Factory as ServiceFactory<L>>::Error,
    >,
    token: usize,
    cx: &mut Context<'_>,
) -> bool
where
    L: Link,
    F: ServerServiceFactory<L>,
    requires inside { token < length services.old.slots.items }
    requires stands { IsStanding (slice_get services.old.slots.items token) }
    requires slot { IfSome (slice_get services.old.slots.items token) (IsSlot F.Factory.Future.Future F.Factory.Service.Service F.Factory.Service.Future.may_stand
        (F.may_serve factory.now token) (F.may_leave factory.now token) (F.may_ready factory.now token) (F.may_init factory.now token) (F.may_make factory.now token)) }
    ensures checks { Checks (F.may_ready factory.now) services.old.slots.items services.old.core services.new.slots.items services.new.core token }
    ensures stayed { IsFalse result → (t : ℕ) → is_asked (status_of services.new.core t) ≡ is_asked (status_of services.old.core t) }
    ensures slot { IfSome (slice_get services.new.slots.items token) (IsSlot F.Factory.Future.Future F.Factory.Service.Service F.Factory.Service.Future.may_stand
        (F.may_serve factory.now token) (F.may_leave factory.now token) (F.may_ready factory.now token) (F.may_init factory.now token) (F.may_make factory.now token)) }
    ensures is_made { IsMade (slice_get services.new.slots.items token) }
    ensures made { services.new.made ≡ services.old.made }
    ensures factories { services.new.factories ≡ services.old.factories }
    ensures kept { Keeps cx.old cx.new }
{
    let Slot::Made(service) = &services.slots[token] else {
        unreachable!()
    };
    match ask(factory, service, token, cx) {
        Poll::Ready(Ok(())) => {
            services.take_answer(token, ReadyAnswer::Ready);
            false
        }
        Poll::Pending => {
            services.take_answer(token, ReadyAnswer::NotReady);
            false
        }
        Poll::Ready(Err(error)) => {
            services.fail(token, error);
            true
        }
    }
}

// Begins to make anew a service that failed.
fn begin_again<L, F>(
    factory: &F,
    services: &mut Services<
        F::Factory,
        <F::Factory as ServiceFactory<L>>::Future,
        <F::Factory as ServiceFactory<L>>::Service,
        <F::Factory as ServiceFactory<L>>::Error,
    >,
    token: usize,
)
where
    L: Link,
    F: ServerServiceFactory<L>,
    requires inside { token < length services.old.slots.items }
    requires down { IsDown (slice_get services.old.slots.items token) }
    requires next { status_of services.old.core token ≡ status.Restarting }
    requires slot { IfSome (slice_get services.old.slots.items token) (IsSlot F.Factory.Future.Future F.Factory.Service.Service F.Factory.Service.Future.may_stand
        (F.may_serve factory.now token) (F.may_leave factory.now token) (F.may_ready factory.now token) (F.may_init factory.now token) (F.may_make factory.now token)) }
    requires factories { AreFactories F.Factory.ServiceFactory F.Factory.Service.Future.may_stand
        (F.may_serve factory.now) (F.may_leave factory.now) (F.may_ready factory.now) (F.may_init factory.now) (F.may_make factory.now) services.old.factories.items }
    ensures remaking { IsRemaking (slice_get services.new.slots.items token) }
    ensures slot { IfSome (slice_get services.new.slots.items token) (IsSlot F.Factory.Future.Future F.Factory.Service.Service F.Factory.Service.Future.may_stand
        (F.may_serve factory.now token) (F.may_leave factory.now token) (F.may_ready factory.now token) (F.may_init factory.now token) (F.may_make factory.now token)) }
    ensures others { (t : ℕ) → t ≢ token → slice_get services.new.slots.items t ≡ slice_get services.old.slots.items t }
    ensures as_many { length services.new.slots.items ≡ length services.old.slots.items }
    ensures waits { making_waits (slice_get services.new.slots.items token) ≡ making_waits (slice_get services.old.slots.items token) }
    ensures core { services.new.core ≡ services.old.core }
    ensures made { services.new.made ≡ services.old.made }
    ensures factories { services.new.factories ≡ services.old.factories }
{
    let Slot::Failed(error) = mem::replace(&mut services.slots[token], Slot::Gone) else {
        unreachable!()
    };
    let making = Watched::new(services.factories[token].new_service(()));
    services.slots[token] = Slot::Remaking(making, error);
}

// Polls the making anew of a service.
fn remake_one<L, F>(
    factory: &F,
    services: &mut Services<
        F::Factory,
        <F::Factory as ServiceFactory<L>>::Future,
        <F::Factory as ServiceFactory<L>>::Service,
        <F::Factory as ServiceFactory<L>>::Error,
    >,
    token: usize,
    cx: &mut Context<'_>,
) -> Checked<<F::Factory as ServiceFactory<L>>::Error, <F::Factory as ServiceFactory<L>>::InitError>
where
    L: Link,
    F: ServerServiceFactory<L>,
    requires inside { token < length services.old.slots.items }
    requires remaking { IsRemaking (slice_get services.old.slots.items token) }
    requires slot { IfSome (slice_get services.old.slots.items token) (IsSlot F.Factory.Future.Future F.Factory.Service.Service F.Factory.Service.Future.may_stand
        (F.may_serve factory.now token) (F.may_leave factory.now token) (F.may_ready factory.now token) (F.may_init factory.now token) (F.may_make factory.now token)) }
    ensures checks { IsChecked result → Checks (F.may_ready factory.now) services.old.slots.items services.old.core services.new.slots.items services.new.core token }
    ensures slot { IsChecked result → IfSome (slice_get services.new.slots.items token) (IsSlot F.Factory.Future.Future F.Factory.Service.Service F.Factory.Service.Future.may_stand
        (F.may_serve factory.now token) (F.may_leave factory.now token) (F.may_ready factory.now token) (F.may_init factory.now token) (F.may_make factory.now token)) }
    ensures is_made { IsMade (slice_get services.new.slots.items token) }
    ensures others { (t : ℕ) → t ≢ token → slice_get services.new.slots.items t ≡ slice_get services.old.slots.items t }
    ensures as_many { length services.new.slots.items ≡ length services.old.slots.items }
    ensures stayed { result ≡ Stayed → (t : ℕ) → is_asked (status_of services.new.core t) ≡ is_asked (status_of services.old.core t) }
    ensures refused { (readiness : F.Factory.Error) (error : F.Factory.InitError) → result ≡ Refused readiness error
        → F.may_ready factory.now token (PollReady (Err readiness)) × F.may_init factory.now token error }
    ensures made { services.new.made ≡ services.old.made }
    ensures factories { services.new.factories ≡ services.old.factories }
    ensures kept { Keeps cx.old cx.new }
{
    let Slot::Remaking(making, _) = &mut services.slots[token] else {
        unreachable!()
    };
    match making.poll(cx) {
        Poll::Pending => Checked::Stayed,
        Poll::Ready(Ok(service)) => {
            services.stand_again(token, service);
            Checked::Moved
        }
        Poll::Ready(Err(error)) => {
            let Slot::Remaking(_, readiness) = mem::replace(&mut services.slots[token], Slot::Gone)
            else {
                unreachable!()
            };
            Checked::Refused { readiness, error }
        }
    }
}

// Checks a service: it is asked where it stands, and made anew where it erred.
fn check_one<L, F>(
    factory: &F,
    services: &mut Services<
        F::Factory,
        <F::Factory as ServiceFactory<L>>::Future,
        <F::Factory as ServiceFactory<L>>::Service,
        <F::Factory as ServiceFactory<L>>::Error,
    >,
    token: usize,
    cx: &mut Context<'_>,
) -> Checked<<F::Factory as ServiceFactory<L>>::Error, <F::Factory as ServiceFactory<L>>::InitError>
where
    L: Link,
    F: ServerServiceFactory<L>,
    requires inside { token < length services.old.slots.items }
    requires is_made { IsMade (slice_get services.old.slots.items token) }
    requires slot { IfSome (slice_get services.old.slots.items token) (IsSlot F.Factory.Future.Future F.Factory.Service.Service F.Factory.Service.Future.may_stand
        (F.may_serve factory.now token) (F.may_leave factory.now token) (F.may_ready factory.now token) (F.may_init factory.now token) (F.may_make factory.now token)) }
    requires factories { AreFactories F.Factory.ServiceFactory F.Factory.Service.Future.may_stand
        (F.may_serve factory.now) (F.may_leave factory.now) (F.may_ready factory.now) (F.may_init factory.now) (F.may_make factory.now) services.old.factories.items }
    ensures checks { IsChecked result → Checks (F.may_ready factory.now) services.old.slots.items services.old.core services.new.slots.items services.new.core token }
    ensures slot { IsChecked result → IfSome (slice_get services.new.slots.items token) (IsSlot F.Factory.Future.Future F.Factory.Service.Service F.Factory.Service.Future.may_stand
        (F.may_serve factory.now token) (F.may_leave factory.now token) (F.may_ready factory.now token) (F.may_init factory.now token) (F.may_make factory.now token)) }
    ensures is_made { IsMade (slice_get services.new.slots.items token) }
    ensures others { (t : ℕ) → t ≢ token → slice_get services.new.slots.items t ≡ slice_get services.old.slots.items t }
    ensures as_many { length services.new.slots.items ≡ length services.old.slots.items }
    ensures stayed { result ≡ Stayed → (t : ℕ) → is_asked (status_of services.new.core t) ≡ is_asked (status_of services.old.core t) }
    ensures refused { (readiness : F.Factory.Error) (error : F.Factory.InitError) → result ≡ Refused readiness error
        → F.may_ready factory.now token (PollReady (Err readiness)) × F.may_init factory.now token error }
    ensures made { services.new.made ≡ services.old.made }
    ensures factories { services.new.factories ≡ services.old.factories }
    ensures kept { Keeps cx.old cx.new }
{
    match services.slots[token] {
        Slot::Made(_) => {
            if ask_one(factory, services, token, cx) {
                Checked::Moved
            } else {
                Checked::Stayed
            }
        }
        Slot::Failed(_) => {
            if !services.core.status(token).is_restarting() {
                return Checked::Stayed;
            }
            begin_again(factory, services, token);
            remake_one(factory, services, token, cx)
        }
        Slot::Remaking(..) => remake_one(factory, services, token, cx),
        Slot::Making(_) | Slot::Gone => unreachable!(),
    }
}

// Checks each service. Where one erred, or was made anew, the task is polled again. A fault says that one could not be made anew.
pub(crate) fn check_readiness<L, F>(
    factory: &F,
    services: &mut Services<
        F::Factory,
        <F::Factory as ServiceFactory<L>>::Future,
        <F::Factory as ServiceFactory<L>>::Service,
        <F::Factory as ServiceFactory<L>>::Error,
    >,
    cx: &mut Context<'_>,
) -> Option<
    Fault<<F::Factory as ServiceFactory<L>>::Error, <F::Factory as ServiceFactory<L>>::InitError>,
>
where
    L: Link,
    F: ServerServiceFactory<L>,
    requires made { AllMade services.old.slots.items }
    requires slots { AreSlots F.Factory.Future.Future F.Factory.Service.Service F.Factory.Service.Future.may_stand
        (F.may_serve factory.now) (F.may_leave factory.now) (F.may_ready factory.now) (F.may_init factory.now) (F.may_make factory.now) services.old.slots.items }
    requires factories { AreFactories F.Factory.ServiceFactory F.Factory.Service.Future.may_stand
        (F.may_serve factory.now) (F.may_leave factory.now) (F.may_ready factory.now) (F.may_init factory.now) (F.may_make factory.now) services.old.factories.items }
    ensures checks { IfNone result (ChecksUpTo (F.may_ready factory.now) services.old.slots.items services.old.core services.new.slots.items services.new.core (length services.old.slots.items)) }
    ensures slots { IfNone result (AreSlots F.Factory.Future.Future F.Factory.Service.Service F.Factory.Service.Future.may_stand
        (F.may_serve factory.now) (F.may_leave factory.now) (F.may_ready factory.now) (F.may_init factory.now) (F.may_make factory.now) services.new.slots.items) }
    ensures all_made { AllMade services.new.slots.items }
    ensures as_many { length services.new.slots.items ≡ length services.old.slots.items }
    ensures armed { IfNone result ((t : ℕ) → HasChanged services.old.core services.new.core t → HasYielded cx.new) }
    ensures fault { IfSome result (λ fault. (fault.token < length services.new.slots.items) × F.may_ready factory.now fault.token (PollReady (Err fault.readiness)) × F.may_init factory.now fault.token fault.error) }
    ensures made { services.new.made ≡ services.old.made }
    ensures factories { services.new.factories ≡ services.old.factories }
    ensures kept { Keeps cx.old cx.new }
{
    let mut moved = false;
    for token in 0..services.slots.len() {
        match check_one(factory, services, token, cx) {
            Checked::Stayed => {}
            Checked::Moved => moved = true,
            Checked::Refused { readiness, error } => {
                return Some(Fault {
                    token,
                    readiness,
                    error,
                });
            }
        }
    }
    if moved {
        let _: Poll<()> = cx.yield_now();
    }
    None
}
