ghost use Rattle.std.specs.Prelude.{◌≡◌, ⊤};
ghost use Rattle.futures.specs.Poll.{OnPending};
ghost use Rattle.service_core.specs.Polls.{Polls};
ghost use Rattle.service_combine.specs.Making.{WithPart};
ghost use Rattle.service_combine.specs.Waits.{OneWaited};
ghost use Rattle.service_combine.specs.declared.one_stage.OneStage.TheVariants.{Refused};

use crate::Map;
use crate::making::Making;
use crate::one_stage::OneStage;
use futures::Future;
use futures::task::{Context, Poll};
use service_core::NoMemory;
use std::marker::PhantomData;

/// Future of a service of `MapServiceFactory`.
#[derive(Drop)]
pub struct MapServiceFuture<Fut, F, Req, Res> {
    pub(crate) making: Making<Fut, F>,
    pub(crate) types: PhantomData<(Req, Res)>,
}

impl<Fut, F, Req, Res> MapServiceFuture<Fut, F, Req, Res> {
    /// The future where the closure could not be shared: it gives want of memory.
    pub fn refused() -> MapServiceFuture<Fut, F, Req, Res>
        ensures { result.making.state ≡ Refused }
    {
        MapServiceFuture {
            making: Making {
                state: OneStage::Refused,
            },
            types: PhantomData,
        }
    }
}

impl<Fut, F, Req, Res, S, I> Future for MapServiceFuture<Fut, F, Req, Res>
where
    Fut: Future<Output = Result<S, I>>,
    F: Drop,
    Req: Drop,
    Res: Drop,
    I: NoMemory,
{
    type Output = Result<Map<S, F, Req, Res>, I>;

    ghost can_poll = { λ m. ⟦<Making<Fut, F> as Future>⟧.can_poll m.making };

    ghost needs = { λ m. ⟦<Making<Fut, F> as Future>⟧.needs m.making };

    ghost gives = { λ m. WithPart (λ made. (made.service, made.f)) (λ _. ⊤)
        (⟦<Making<Fut, F> as Future>⟧.gives m.making) };

    fn poll(&mut self, cx: &mut Context<'_>) -> Poll<Result<Map<S, F, Req, Res>, I>>
        requires { ⟦<MapServiceFuture<Fut, F, Req, Res> as Future>⟧.can_poll self.old }
        ensures polls { Polls ⟦<MapServiceFuture<Fut, F, Req, Res> as Future>⟧ self.old self.new cx.old cx.new result }
        ensures waited { OnPending result (OneWaited self.old.making.state self.new.making.state) }
    {
        match self.making.poll(cx) {
            Poll::Pending => Poll::Pending,
            Poll::Ready(Err(e)) => Poll::Ready(Err(e)),
            Poll::Ready(Ok((service, f))) => Poll::Ready(Ok(Map {
                service,
                f,
                types: PhantomData,
            })),
        }
    }
}
