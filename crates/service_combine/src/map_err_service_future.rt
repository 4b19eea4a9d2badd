ghost use Rattle.std.specs.Prelude.{◌≡◌, ⊤};
ghost use Rattle.futures.specs.Poll.{OnPending};
ghost use Rattle.service_core.specs.Polls.{Polls};
ghost use Rattle.service_combine.specs.Making.{WithPart};
ghost use Rattle.service_combine.specs.Waits.{OneWaited};
ghost use Rattle.service_combine.specs.declared.one_stage.OneStage.TheVariants.{Refused};

use crate::MapErr;
use crate::making::Making;
use crate::one_stage::OneStage;
use futures::Future;
use futures::task::{Context, Poll};
use service_core::NoMemory;
use std::marker::PhantomData;

/// Future of a service of `MapErrServiceFactory`.
#[derive(Drop)]
pub struct MapErrServiceFuture<Fut, F, Req, E> {
    pub(crate) making: Making<Fut, F>,
    pub(crate) types: PhantomData<(Req, E)>,
}

impl<Fut, F, Req, E> MapErrServiceFuture<Fut, F, Req, E> {
    /// The future where the closure could not be shared: it gives want of memory.
    pub fn refused() -> MapErrServiceFuture<Fut, F, Req, E>
        ensures { result.making.state ≡ Refused }
    {
        MapErrServiceFuture {
            making: Making {
                state: OneStage::Refused,
            },
            types: PhantomData,
        }
    }
}

impl<Fut, F, Req, E, S, I> Future for MapErrServiceFuture<Fut, F, Req, E>
where
    Fut: Future<Output = Result<S, I>>,
    F: Drop,
    Req: Drop,
    E: Drop,
    I: NoMemory,
{
    type Output = Result<MapErr<S, Req, F, E>, I>;

    ghost can_poll = { λ m. ⟦<Making<Fut, F> as Future>⟧.can_poll m.making };

    ghost needs = { λ m. ⟦<Making<Fut, F> as Future>⟧.needs m.making };

    ghost gives = { λ m. WithPart (λ made. (made.service, made.f)) (λ _. ⊤)
        (⟦<Making<Fut, F> as Future>⟧.gives m.making) };

    fn poll(&mut self, cx: &mut Context<'_>) -> Poll<Result<MapErr<S, Req, F, E>, I>>
        requires { ⟦<MapErrServiceFuture<Fut, F, Req, E> as Future>⟧.can_poll self.old }
        ensures polls { Polls ⟦<MapErrServiceFuture<Fut, F, Req, E> as Future>⟧ self.old self.new cx.old cx.new result }
        ensures waited { OnPending result (OneWaited self.old.making.state self.new.making.state) }
    {
        match self.making.poll(cx) {
            Poll::Pending => Poll::Pending,
            Poll::Ready(Err(e)) => Poll::Ready(Err(e)),
            Poll::Ready(Ok((service, f))) => Poll::Ready(Ok(MapErr {
                service,
                f,
                types: PhantomData,
            })),
        }
    }
}
