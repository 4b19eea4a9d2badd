ghost use Rattle.std.specs.Prelude.{◌≡◌, ◌⊎◌, ⊤, Err, MatchResult};
ghost use Rattle.futures.specs.Poll.{IfReady, OnPending};
ghost use Rattle.service_core.specs.Polls.{Polls};
ghost use Rattle.service_combine.specs.Pairing.{BothGive, BothWaited, ErrsInOrder, HalfGives, HalfNeeds, IsLive};
ghost use Rattle.service_combine.specs.declared.both.Both.TheVariants.{Halves, Refused};
ghost use Rattle.service_combine.specs.declared.half.Half.TheVariants.{Waiting};

use crate::half::{Half, take_both};
use futures::Future;
use futures::task::{Context, Poll};
use service_core::{NoMemory, Watched};

/// Two services that are being made.
#[derive(Drop)]
pub(crate) enum Both<X, Y, S, T> {
    Halves {
        first: Half<X, S>,
        second: Half<Y, T>,
    },
    Refused,
}

impl<X, Y, S, T> Both<X, Y, S, T> {
    pub(crate) fn of(first: X, second: Y) -> Both<X, Y, S, T>
        ensures { result ≡ Halves (Waiting (record { future = first; waits = 0 })) (Waiting (record { future = second; waits = 0 })) }
    {
        Both::Halves {
            first: Half::Waiting {
                future: Watched::new(first),
            },
            second: Half::Waiting {
                future: Watched::new(second),
            },
        }
    }
}

impl<X, Y, S, T, I> Future for Both<X, Y, S, T>
where
    X: Future<Output = Result<S, I>>,
    Y: Future<Output = Result<T, I>>,
    S: Drop,
    T: Drop,
    I: NoMemory,
{
    type Output = Result<(S, T), I>;

    ghost can_poll = { λ m. elim m [
      | Halves a b ↦ IsLive X.can_poll a × IsLive Y.can_poll b
      | Refused ↦ ⊤
    ] };

    ghost needs = { λ m n. elim m [
      | Halves a b ↦ HalfNeeds X.needs a n ⊎ HalfNeeds Y.needs b n
      | Refused ↦ ⊥
    ] };

    ghost gives = { λ m r. elim m [
      | Halves a b ↦ BothGive (HalfGives X.gives a) (HalfGives Y.gives b) r
      | Refused ↦ r ≡ Err I.refusal
    ] };

    fn poll(&mut self, cx: &mut Context<'_>) -> Poll<Result<(S, T), I>>
        requires { ⟦<Both<X, Y, S, T> as Future>⟧.can_poll self.old }
        ensures polls { Polls ⟦<Both<X, Y, S, T> as Future>⟧ self.old self.new cx.old cx.new result }
        ensures waited { OnPending result (BothWaited self.old self.new) }
        ensures order { IfReady result (λ r. MatchResult r (λ _. ⊤) (ErrsInOrder X.gives Y.gives self.old self.new)) }
    {
        match self {
            Both::Refused => Poll::Ready(Err(I::no_memory())),
            Both::Halves { first, second } => match first.advance(cx) {
                Err(e) => Poll::Ready(Err(e)),
                Ok(()) => match second.advance(cx) {
                    Err(e) => Poll::Ready(Err(e)),
                    Ok(()) => match take_both(first, second) {
                        Some(pair) => Poll::Ready(Ok(pair)),
                        None => Poll::Pending,
                    },
                },
            },
        }
    }
}
