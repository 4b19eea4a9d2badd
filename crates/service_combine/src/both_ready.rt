ghost use Rattle.futures.specs.Poll.{OnPending};
ghost use Rattle.futures.specs.Task.{IsArmed, Keeps};
ghost use Rattle.service_combine.specs.Readying.{BothReady};

use futures::task::{Context, Poll};
use service_core::Service;

/// The readiness of two parts: both are asked, but for the second where the first has erred.
pub(crate) fn both_ready<A, B, Q, R>(
    first: &A,
    second: &B,
    cx: &mut Context<'_>,
) -> Poll<Result<(), A::Error>>
where
    A: Service<Q>,
    B: Service<R, Error = A::Error>,
    requires first { A.can_call first.now }
    requires second { B.can_call second.now }
    ensures answer { BothReady (A.may_ready first.now) (B.may_ready second.now) result }
    ensures armed { OnPending result (IsArmed cx.new) }
    ensures kept { Keeps cx.old cx.new }
{
    match first.poll_ready(cx) {
        Poll::Ready(Err(e)) => Poll::Ready(Err(e)),
        Poll::Ready(Ok(())) => second.poll_ready(cx),
        Poll::Pending => match second.poll_ready(cx) {
            Poll::Ready(Err(e)) => Poll::Ready(Err(e)),
            Poll::Ready(Ok(())) => Poll::Pending,
            Poll::Pending => Poll::Pending,
        },
    }
}
