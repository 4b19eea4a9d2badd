ghost use Rattle.std.specs.Prelude.{◌≡◌};
ghost use Rattle.futures.specs.Task.{Keeps};
ghost use Rattle.http_flow.specs.Creating.{OfPart};
ghost use Rattle.http_flow.specs.Making.{Advances, AdvancesSome, Begun, IsLive, IsMade, OfBoth, Promises};
ghost use Rattle.http_flow.specs.declared.part.Part.TheVariants.{Made};

use futures::Future;
use futures::task::{Context, Poll};
use service_core::{Service, ServiceFactory, Watched};
use std::mem::replace;

/// One of the services of a connection: it is being made, it is made, or it is gone.
#[derive(Drop)]
pub(crate) enum Part<F, T> {
    /// Its making, which has not ended.
    Making(Watched<F>),
    /// The service.
    Made(T),
    /// It was taken, or its making erred.
    Gone,
}

impl<F, T: Drop> Part<F, T> {
    // Polls the making, where it has not ended.
    pub(crate) fn advance<I>(&mut self, cx: &mut Context<'_>) -> Poll<Result<(), I>>
    where
        F: Future<Output = Result<T, I>>,
        requires { IsLive F.can_poll self.old }
        ensures advances { Advances F.Future self.old self.new cx.new result }
        ensures kept { Keeps cx.old cx.new }
    {
        match self {
            Part::Making(making) => match making.poll(cx) {
                Poll::Pending => Poll::Pending,
                Poll::Ready(Ok(service)) => {
                    *self = Part::Made(service);
                    Poll::Ready(Ok(()))
                }
                Poll::Ready(Err(e)) => {
                    *self = Part::Gone;
                    Poll::Ready(Err(e))
                }
            },
            Part::Made(_) => Poll::Ready(Ok(())),
            Part::Gone => unreachable!(),
        }
    }

    // The service, which is made, and then is gone.
    pub(crate) fn take(&mut self) -> T
    where
        F: Drop,
        requires { IsMade self.old }
        ensures { self.old ≡ Made result }
    {
        match replace(self, Part::Gone) {
            Part::Made(service) => service,
            Part::Making(_) | Part::Gone => unreachable!(),
        }
    }
}

// Begins to make a service of the factory.
pub(crate) fn begin<M, Q>(factory: &M) -> Part<M::Future, M::Service>
where
    M: ServiceFactory<Q, Config = ()>,
    requires { M.can_make factory.now }
    ensures { Begun M.Future.Future (Promises M.ServiceFactory M.Service.Service factory.now tt) result }
{
    Part::Making(Watched::new(factory.new_service(())))
}

// Begins to make a service of the factory, where there is one.
pub(crate) fn begin_some<M, Q>(factory: &Option<M>) -> Option<Part<M::Future, M::Service>>
where
    M: ServiceFactory<Q, Config = ()>,
    requires { OfPart factory.now M.can_make }
    ensures { OfBoth (λ part maker. Begun M.Future.Future (Promises M.ServiceFactory M.Service.Service maker tt) part) result factory.now }
{
    match factory {
        Some(factory) => Some(begin(factory)),
        None => None,
    }
}

// Polls the making, where there is one that has not ended.
pub(crate) fn advance_some<F, T: Drop, I>(
    part: &mut Option<Part<F, T>>,
    cx: &mut Context<'_>,
) -> Poll<Result<(), I>>
where
    F: Future<Output = Result<T, I>>,
    requires { OfPart part.old (IsLive F.can_poll) }
    ensures advances { AdvancesSome F.Future part.old part.new cx.new result }
    ensures kept { Keeps cx.old cx.new }
{
    match part {
        Some(part) => part.advance(cx),
        None => Poll::Ready(Ok(())),
    }
}

// The service, where there is one, which is made and then is gone.
pub(crate) fn take_some<F: Drop, T: Drop>(part: &mut Option<Part<F, T>>) -> Option<T>
    requires { OfPart part.old IsMade }
    ensures { OfBoth (λ part service. part ≡ Made service) part.old result }
{
    match part {
        Some(part) => Some(part.take()),
        None => None,
    }
}
