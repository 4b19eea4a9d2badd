ghost use Rattle.std.specs.Prelude.{⊤, IsOk, IsSome};

use crate::tag::Tag;
use futures::Future;
use futures::task::{Context, Poll};
use service_core::{Ended, How, LinkHolder};

/// Waits at its first poll, and hands its link back at the second one.
#[derive(Drop)]
pub(crate) struct Closing {
    pub(crate) link: Option<Tag>,
    pub(crate) waited: bool,
}

impl Future for Closing {
    type Output = Result<Ended<Tag>, usize>;

    ghost can_poll = { λ f. IsSome f.link };

    ghost gives = { λ _ r. IsOk r };

    fn poll(&mut self, cx: &mut Context<'_>) -> Poll<Result<Ended<Tag>, usize>> {
        if !self.waited {
            self.waited = true;
            return cx.yield_now();
        }
        Poll::Ready(Ok(Ended {
            link: self.link.take().unwrap(),
            how: How::Served,
        }))
    }
}

impl LinkHolder<Tag> for Closing {
    ghost may_stand = { λ _ _. ⊤ };

    ghost stands_by_gives = { λ _ _ _ _ _. tt };

    fn into_link(self) -> Tag {
        self.link.unwrap()
    }
}
