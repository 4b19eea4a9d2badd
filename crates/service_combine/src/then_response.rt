ghost use Rattle.std.specs.Prelude.{◌≡◌, ⊤, Err};
ghost use Rattle.std.specs.Arc.{arc_value};
ghost use Rattle.futures.specs.Poll.{OnPending};
ghost use Rattle.service_core.specs.Polls.{Polls};
ghost use Rattle.service_core.specs.Meaning.{Follows};
ghost use Rattle.service_combine.specs.Waits.{TwoWaited};
ghost use Rattle.service_combine.specs.declared.two_stages.TwoStages.TheVariants.{First, Second, Refused, Done};

use crate::two_stages::TwoStages;
use futures::Future;
use futures::task::{Context, Poll};
use service_core::{NoMemory, Service, Watched};

/// Future of a call of `ThenService`.
#[derive(Drop)]
pub struct ThenServiceResponse<A, B, Req>
where
    A: Service<Req>,
    B: Service<Result<A::Response, A::Error>, Error = A::Error>,
{
    pub(crate) state: TwoStages<A::Future, B::Future, (A, B)>,
}

impl<A, B, Req> ThenServiceResponse<A, B, Req>
where
    A: Service<Req>,
    B: Service<Result<A::Response, A::Error>, Error = A::Error>,
{
    /// The future where the parts could not be shared: it gives want of memory.
    pub fn refused() -> ThenServiceResponse<A, B, Req>
        ensures { result.state ≡ Refused }
    {
        ThenServiceResponse {
            state: TwoStages::Refused,
        }
    }
}

impl<A, B, Req> Future for ThenServiceResponse<A, B, Req>
where
    A: Service<Req, Error: NoMemory> + Drop,
    B: Service<Result<A::Response, A::Error>, Error = A::Error> + Drop,
{
    type Output = Result<B::Response, A::Error>;

    ghost can_poll = { λ m. elim m.state [
      | First w parts ↦ A.Future.can_poll w.future × B.can_call (arc_value parts).1
      | Second w ↦ B.Future.can_poll w.future
      | Refused ↦ ⊤
      | Done ↦ ⊥
    ] };

    ghost needs = { λ m s. elim m.state [
      | First w parts ↦ A.Future.needs w.future s
      | Second w ↦ B.Future.needs w.future s
      | Refused ↦ ⊥
      | Done ↦ ⊥
    ] };

    ghost gives = { λ m r. elim m.state [
      | First w parts ↦ Follows (A.Future.gives w.future) (B.may (arc_value parts).1) r
      | Second w ↦ B.Future.gives w.future r
      | Refused ↦ r ≡ Err A.Error.refusal
      | Done ↦ ⊥
    ] };

    fn poll(&mut self, cx: &mut Context<'_>) -> Poll<Result<B::Response, A::Error>>
        requires { ⟦<ThenServiceResponse<A, B, Req> as Future>⟧.can_poll self.old }
        ensures polls { Polls ⟦<ThenServiceResponse<A, B, Req> as Future>⟧ self.old self.new cx.old cx.new result }
        ensures waited { OnPending result (TwoWaited self.old.state self.new.state) }
    {
        match &mut self.state {
            TwoStages::First { future, parts } => match future.poll(cx) {
                Poll::Pending => Poll::Pending,
                Poll::Ready(result) => {
                    let mut second = Watched::new(parts.1.call(result));
                    let polled = second.poll(cx);
                    self.state = TwoStages::Second { future: second };
                    polled
                }
            },
            TwoStages::Second { future } => future.poll(cx),
            TwoStages::Refused => Poll::Ready(Err(NoMemory::no_memory())),
            TwoStages::Done => unreachable!(),
        }
    }
}
