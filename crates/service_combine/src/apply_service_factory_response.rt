ghost use Rattle.std.specs.Prelude.{◌≡◌, ⊤};
ghost use Rattle.futures.specs.Poll.{OnPending};
ghost use Rattle.service_core.specs.Polls.{Polls};
ghost use Rattle.service_combine.specs.Making.{WithPart};
ghost use Rattle.service_combine.specs.Waits.{OneWaited};
ghost use Rattle.service_combine.specs.declared.one_stage.OneStage.TheVariants.{Refused};

use crate::Apply;
use crate::making::Making;
use crate::one_stage::OneStage;
use futures::Future;
use futures::task::{Context, Poll};
use service_core::NoMemory;
use std::marker::PhantomData;

/// Future of a service of `ApplyFactory`.
#[derive(Drop)]
pub struct ApplyServiceFactoryResponse<Fut, F, Req, In, Res, Err> {
    pub(crate) making: Making<Fut, F>,
    pub(crate) types: PhantomData<(Req, In, Res, Err)>,
}

impl<Fut, F, Req, In, Res, Err> ApplyServiceFactoryResponse<Fut, F, Req, In, Res, Err> {
    /// The future where the closure could not be shared: it gives want of memory.
    pub fn refused() -> ApplyServiceFactoryResponse<Fut, F, Req, In, Res, Err>
        ensures { result.making.state ≡ Refused }
    {
        ApplyServiceFactoryResponse {
            making: Making {
                state: OneStage::Refused,
            },
            types: PhantomData,
        }
    }
}

impl<Fut, F, Req, In, Res, Err, S, I> Future
    for ApplyServiceFactoryResponse<Fut, F, Req, In, Res, Err>
where
    Fut: Future<Output = Result<S, I>>,
    F: Drop,
    Req: Drop,
    In: Drop,
    Res: Drop,
    Err: Drop,
    I: NoMemory,
{
    type Output = Result<Apply<S, F, Req, In, Res, Err>, I>;

    ghost can_poll = { λ m. ⟦<Making<Fut, F> as Future>⟧.can_poll m.making };

    ghost needs = { λ m. ⟦<Making<Fut, F> as Future>⟧.needs m.making };

    ghost gives = { λ m. WithPart (λ made. (made.service, made.wrap_fn)) (λ _. ⊤)
        (⟦<Making<Fut, F> as Future>⟧.gives m.making) };

    fn poll(&mut self, cx: &mut Context<'_>) -> Poll<Result<Apply<S, F, Req, In, Res, Err>, I>>
        requires { ⟦<ApplyServiceFactoryResponse<Fut, F, Req, In, Res, Err> as Future>⟧.can_poll self.old }
        ensures polls { Polls ⟦<ApplyServiceFactoryResponse<Fut, F, Req, In, Res, Err> as Future>⟧ self.old self.new cx.old cx.new result }
        ensures waited { OnPending result (OneWaited self.old.making.state self.new.making.state) }
    {
        match self.making.poll(cx) {
            Poll::Pending => Poll::Pending,
            Poll::Ready(Err(e)) => Poll::Ready(Err(e)),
            Poll::Ready(Ok((service, f))) => Poll::Ready(Ok(Apply {
                service,
                wrap_fn: f,
                types: PhantomData,
            })),
        }
    }
}
