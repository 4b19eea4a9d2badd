ghost use Rattle.std.specs.Prelude.{◌≡◌, ⊤, Err};
ghost use Rattle.std.specs.Arc.{arc_value};
ghost use Rattle.futures.specs.Poll.{OnPending};
ghost use Rattle.service_core.specs.Polls.{Polls};
ghost use Rattle.service_combine.specs.Making.{WithPart};
ghost use Rattle.service_combine.specs.Waits.{OneWaited};
ghost use Rattle.service_combine.specs.declared.one_stage.OneStage.TheVariants.{Waiting, Refused, Done};

use crate::one_stage::OneStage;
use futures::Future;
use futures::task::{Context, Poll};
use service_core::{NoMemory, Watched};
use std::mem::replace;
use std::sync::Arc;

/// A service that is being made, with the closure that comes with it.
#[derive(Drop)]
pub(crate) struct Making<Fut, F> {
    pub(crate) state: OneStage<Fut, F>,
}

impl<Fut, F> Making<Fut, F> {
    pub(crate) fn of(future: Fut, f: Arc<F>) -> Making<Fut, F>
        ensures { result.state ≡ Waiting (record { future = future; waits = 0 }) f }
    {
        Making {
            state: OneStage::Waiting {
                future: Watched::new(future),
                f,
            },
        }
    }
}

impl<Fut, F, S, I> Future for Making<Fut, F>
where
    Fut: Future<Output = Result<S, I>>,
    F: Drop,
    I: NoMemory,
{
    type Output = Result<(S, Arc<F>), I>;

    ghost can_poll = { λ m. elim m.state [
      | Waiting w f ↦ Fut.can_poll w.future
      | Refused ↦ ⊤
      | Done ↦ ⊥
    ] };

    ghost needs = { λ m s. elim m.state [
      | Waiting w f ↦ Fut.needs w.future s
      | Refused ↦ ⊥
      | Done ↦ ⊥
    ] };

    ghost gives = { λ m r. elim m.state [
      | Waiting w f ↦ WithPart (λ pair. pair.0) (λ pair. arc_value pair.1 ≡ arc_value f) (Fut.gives w.future) r
      | Refused ↦ r ≡ Err I.refusal
      | Done ↦ ⊥
    ] };

    fn poll(&mut self, cx: &mut Context<'_>) -> Poll<Result<(S, Arc<F>), I>>
        requires { ⟦<Making<Fut, F> as Future>⟧.can_poll self.old }
        ensures polls { Polls ⟦<Making<Fut, F> as Future>⟧ self.old self.new cx.old cx.new result }
        ensures waited { OnPending result (OneWaited self.old.state self.new.state) }
    {
        match replace(&mut self.state, OneStage::Done) {
            OneStage::Waiting { mut future, f } => match future.poll(cx) {
                Poll::Pending => {
                    self.state = OneStage::Waiting { future, f };
                    Poll::Pending
                }
                Poll::Ready(Err(e)) => Poll::Ready(Err(e)),
                Poll::Ready(Ok(service)) => Poll::Ready(Ok((service, f))),
            },
            OneStage::Refused => Poll::Ready(Err(I::no_memory())),
            OneStage::Done => unreachable!(),
        }
    }
}
