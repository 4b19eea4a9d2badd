ghost use Rattle.std.specs.Prelude.{◌≡◌, Ok};
ghost use Rattle.futures.specs.Poll.{OnPending};
ghost use Rattle.futures.specs.declared.task.Poll.TheVariants.{Ready as PollReady};
ghost use Rattle.service_core.specs.Polls.{Polls};
ghost use Rattle.service_combine.specs.Staging.{AwaitsReady, ReadyOr, ReadyWaited, Turns};
ghost use Rattle.service_combine.specs.declared.made_ready.MadeReady.TheVariants.{Making, Readying};

use crate::when_ready::WhenReady;
use futures::Future;
use futures::task::{Context, Poll};
use service_core::{Service, Watched};
use std::marker::PhantomData;

/// A service that is made, and then given once it is ready. An error of its readiness is turned by `From`.
#[derive(Drop)]
pub(crate) enum MadeReady<X, S, Req> {
    Making { future: Watched<X> },
    Readying { ready: Watched<WhenReady<S, Req>> },
}

impl<X, S, Req, I> Future for MadeReady<X, S, Req>
where
    Req: Drop,
    S: Service<Req> + Drop,
    X: Future<Output = Result<S, I>>,
    I: From<S::Error>,
{
    type Output = Result<S, I>;

    ghost can_poll = { λ m. elim m [
      | Making w ↦ X.can_poll w.future × ((s : S) → X.gives w.future (Ok s) → S.can_call s)
      | Readying w ↦ ⟦<WhenReady<S, Req> as Future>⟧.can_poll w.future
    ] };

    ghost needs = { λ m n. elim m [
      | Making w ↦ X.needs w.future n
      | Readying w ↦ ⊥
    ] };

    ghost gives = { λ m r. elim m [
      | Making w ↦ ReadyOr (X.gives w.future) S.may_ready I.From.from_gives r
      | Readying w ↦ AwaitsReady (⟦<WhenReady<S, Req> as Future>⟧.gives w.future) I.From.from_gives r
    ] };

    fn poll(&mut self, cx: &mut Context<'_>) -> Poll<Result<S, I>>
        requires { ⟦<MadeReady<X, S, Req> as Future>⟧.can_poll self.old }
        ensures polls { Polls ⟦<MadeReady<X, S, Req> as Future>⟧ self.old self.new cx.old cx.new result }
        ensures waited { OnPending result (ReadyWaited self.old self.new) }
    {
        match self {
            MadeReady::Making { future } => match future.poll(cx) {
                Poll::Pending => Poll::Pending,
                Poll::Ready(Err(e)) => Poll::Ready(Err(e)),
                Poll::Ready(Ok(service)) => {
                    let mut ready = Watched::new(WhenReady {
                        service: Some(service),
                        request: PhantomData,
                    });
                    let polled = ready.poll(cx);
                    *self = MadeReady::Readying { ready };
                    turned(polled)
                }
            },
            MadeReady::Readying { ready } => turned(ready.poll(cx)),
        }
    }
}

// The answer, with an error turned by `From`.
fn turned<S, E, I: From<E>>(polled: Poll<Result<S, E>>) -> Poll<Result<S, I>>
    ensures { Turns I.From.from_gives polled result }
{
    match polled {
        Poll::Pending => Poll::Pending,
        Poll::Ready(Ok(service)) => Poll::Ready(Ok(service)),
        Poll::Ready(Err(e)) => Poll::Ready(Err(From::from(e))),
    }
}
