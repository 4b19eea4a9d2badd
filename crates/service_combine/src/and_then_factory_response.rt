ghost use Rattle.std.specs.Prelude.{◌≡◌, ⊤, MatchResult};
ghost use Rattle.std.specs.Arc.{arc_value};
ghost use Rattle.futures.specs.Poll.{IfReady, OnPending};
ghost use Rattle.service_core.specs.Polls.{Polls};
ghost use Rattle.service_combine.specs.Making.{WithPart};
ghost use Rattle.service_combine.specs.Meaning.{OrRefused};
ghost use Rattle.service_combine.specs.Pairing.{BothWaited, PairErrs};
ghost use Rattle.service_combine.specs.declared.both.Both.TheVariants.{Refused};

use crate::AndThenService;
use crate::both::Both;
use crate::sharing::shared;
use futures::Future;
use futures::task::{Context, Poll};
use service_core::{NoMemory, Service, ServiceFactory};
use std::alloc::Global;
use std::marker::PhantomData;

/// Future of a service of `AndThenServiceFactory`: each poll asks both makings until both services stand. The first error
/// is the answer, that of the first part before that of the second.
#[derive(Drop)]
pub struct AndThenServiceFactoryResponse<A, B, Req>
where
    A: ServiceFactory<Req>,
    B: ServiceFactory<A::Response, Config = A::Config, Error = A::Error, InitError = A::InitError>,
{
    pub(crate) making: Both<A::Future, B::Future, A::Service, B::Service>,
    pub(crate) alloc: Global,
}

impl<A, B, Req> AndThenServiceFactoryResponse<A, B, Req>
where
    A: ServiceFactory<Req>,
    B: ServiceFactory<A::Response, Config = A::Config, Error = A::Error, InitError = A::InitError>,
{
    /// The future where the parts could not be shared: it gives want of memory.
    pub fn refused(alloc: Global) -> AndThenServiceFactoryResponse<A, B, Req>
        ensures { result.making ≡ Refused }
    {
        AndThenServiceFactoryResponse {
            making: Both::Refused,
            alloc,
        }
    }
}

impl<A, B, Req> Future for AndThenServiceFactoryResponse<A, B, Req>
where
    A: ServiceFactory<Req, InitError: NoMemory, Service: Drop>,
    B: ServiceFactory<
        A::Response,
        Config = A::Config,
        Error = A::Error,
        InitError = A::InitError,
        Service: Drop,
    >,
{
    type Output = Result<AndThenService<A::Service, B::Service, Req>, A::InitError>;

    ghost can_poll = { λ m. ⟦<Both<A::Future, B::Future, A::Service, B::Service> as Future>⟧.can_poll m.making };

    ghost needs = { λ m. ⟦<Both<A::Future, B::Future, A::Service, B::Service> as Future>⟧.needs m.making };

    ghost gives = { λ m. OrRefused (WithPart (λ made. arc_value made.parts) (λ _. ⊤)
        (⟦<Both<A::Future, B::Future, A::Service, B::Service> as Future>⟧.gives m.making)) A.InitError.refusal };

    fn poll(
        &mut self,
        cx: &mut Context<'_>,
    ) -> Poll<Result<AndThenService<A::Service, B::Service, Req>, A::InitError>>
        requires { ⟦<AndThenServiceFactoryResponse<A, B, Req> as Future>⟧.can_poll self.old }
        ensures polls { Polls ⟦<AndThenServiceFactoryResponse<A, B, Req> as Future>⟧ self.old self.new cx.old cx.new result }
        ensures waited { OnPending result (BothWaited self.old.making self.new.making) }
        ensures order { IfReady result (λ r. MatchResult r (λ _. ⊤)
            (PairErrs A.Future.gives B.Future.gives self.old.making self.new.making A.InitError.refusal)) }
    {
        match self.making.poll(cx) {
            Poll::Pending => Poll::Pending,
            Poll::Ready(Err(e)) => Poll::Ready(Err(e)),
            Poll::Ready(Ok((first, second))) => {
                match shared(self.alloc, (first, second)) {
                    Ok(parts) => Poll::Ready(Ok(AndThenService {
                        parts,
                        request: PhantomData,
                    })),
                    Err(_) => Poll::Ready(Err(NoMemory::no_memory())),
                }
            }
        }
    }
}
