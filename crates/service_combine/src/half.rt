ghost use Rattle.futures.specs.Task.{Keeps};
ghost use Rattle.service_combine.specs.Pairing.{Advances, IsLive, Takes};

use futures::Future;
use futures::task::{Context, Poll};
use service_core::Watched;
use std::mem::replace;

/// One service of a pair: it is being made, it is made, or its making has ended.
#[derive(Drop)]
pub(crate) enum Half<Fut, S> {
    Waiting { future: Watched<Fut> },
    Made { service: S },
    Done,
}

impl<Fut, S: Drop> Half<Fut, S> {
    // Polls the making, where it has not ended.
    pub(crate) fn advance<I>(&mut self, cx: &mut Context<'_>) -> Result<(), I>
    where
        Fut: Future<Output = Result<S, I>>,
        requires { IsLive Fut.can_poll self.old }
        ensures advances { Advances Fut.can_poll Fut.needs Fut.gives self.old self.new cx.new result }
        ensures kept { Keeps cx.old cx.new }
    {
        match self {
            Half::Waiting { future } => match future.poll(cx) {
                Poll::Pending => Ok(()),
                Poll::Ready(Ok(service)) => {
                    *self = Half::Made { service };
                    Ok(())
                }
                Poll::Ready(Err(e)) => {
                    *self = Half::Done;
                    Err(e)
                }
            },
            Half::Made { .. } => Ok(()),
            Half::Done => unreachable!(),
        }
    }
}

// Both services, where both are made. Else the halves stay.
pub(crate) fn take_both<X, Y, S, T>(
    first: &mut Half<X, S>,
    second: &mut Half<Y, T>,
) -> Option<(S, T)>
where
    X: Drop,
    Y: Drop,
    S: Drop,
    T: Drop,
    ensures { Takes first.old first.new second.old second.new result }
{
    match (replace(first, Half::Done), replace(second, Half::Done)) {
        (Half::Made { service: one }, Half::Made { service: other }) => Some((one, other)),
        (one, other) => {
            *first = one;
            *second = other;
            None
        }
    }
}
