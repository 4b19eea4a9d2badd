ghost use Rattle.std.specs.Prelude.{◌≡◌, ⊤, Err};
ghost use Rattle.std.specs.Arc.{arc_value};
ghost use Rattle.futures.specs.Poll.{OnPending};
ghost use Rattle.service_core.specs.Polls.{Polls};
ghost use Rattle.service_combine.specs.Meaning.{MappedErr};
ghost use Rattle.service_combine.specs.Waits.{OneWaited};
ghost use Rattle.service_combine.specs.declared.one_stage.OneStage.TheVariants.{Waiting, Refused, Done};

use crate::one_stage::OneStage;
use futures::Future;
use futures::task::{Context, Poll};
use service_core::NoMemory;

/// Future of a call of `MapErr`.
#[derive(Drop)]
pub struct MapErrFuture<Fut, F> {
    pub(crate) state: OneStage<Fut, F>,
}

impl<Fut, F> MapErrFuture<Fut, F> {
    /// The future where the closure could not be shared: it gives want of memory.
    pub fn refused() -> MapErrFuture<Fut, F>
        ensures { result.state ≡ Refused }
    {
        MapErrFuture {
            state: OneStage::Refused,
        }
    }
}

/// Future of a service of `MapInitErr`.
pub type MapInitErrFuture<Fut, F> = MapErrFuture<Fut, F>;

/// Future of a wrapped service of `TransformMapInitErr`.
pub type TransformMapInitErrFuture<Fut, F> = MapErrFuture<Fut, F>;

impl<Fut, F, Res, Mid, E> Future for MapErrFuture<Fut, F>
where
    Fut: Future<Output = Result<Res, Mid>>,
    F: Fn(Mid) -> E + Drop,
    E: NoMemory,
{
    type Output = Result<Res, E>;

    ghost can_poll = { λ m. elim m.state [
      | Waiting w f ↦ Fut.can_poll w.future × F.IsAlwaysCallable (arc_value f)
      | Refused ↦ ⊤
      | Done ↦ ⊥
    ] };

    ghost needs = { λ m s. elim m.state [
      | Waiting w f ↦ Fut.needs w.future s
      | Refused ↦ ⊥
      | Done ↦ ⊥
    ] };

    ghost gives = { λ m r. elim m.state [
      | Waiting w f ↦ MappedErr (Fut.gives w.future) (F.post (arc_value f)) r
      | Refused ↦ r ≡ Err E.refusal
      | Done ↦ ⊥
    ] };

    fn poll(&mut self, cx: &mut Context<'_>) -> Poll<Result<Res, E>>
        requires { ⟦<MapErrFuture<Fut, F> as Future>⟧.can_poll self.old }
        ensures polls { Polls ⟦<MapErrFuture<Fut, F> as Future>⟧ self.old self.new cx.old cx.new result }
        ensures waited { OnPending result (OneWaited self.old.state self.new.state) }
    {
        match &mut self.state {
            OneStage::Waiting { future, f } => match future.poll(cx) {
                Poll::Pending => Poll::Pending,
                Poll::Ready(Ok(value)) => Poll::Ready(Ok(value)),
                Poll::Ready(Err(e)) => Poll::Ready(Err(f(e))),
            },
            OneStage::Refused => Poll::Ready(Err(E::no_memory())),
            OneStage::Done => unreachable!(),
        }
    }
}
