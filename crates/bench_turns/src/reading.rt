ghost use Rattle.std.specs.Prelude.{⊤, IsOk, IsSome};
ghost use Rattle.futures.specs.Poll.{OnPending};
ghost use Rattle.futures.specs.Task.{IsArmed, Keeps};

use crate::small_link::SmallLink;
use futures::Future;
use futures::task::{Context, Poll};
use service_core::{Ended, How, Link, LinkHolder};
use std::alloc::AllocError;

/// Reads its link once, and then hands it back.
#[derive(Drop)]
pub struct Reading {
    link: Option<SmallLink>,
}

impl Reading {
    /// Reads this link.
    pub fn new(link: SmallLink) -> Reading
        ensures { IsSome result.link }
    {
        Reading { link: Some(link) }
    }

    // Whether there was something to read, or the end.
    fn reads(&mut self, cx: &mut Context<'_>) -> Poll<()>
        requires { IsSome self.old.link }
        ensures holds { IsSome self.new.link }
        ensures armed { OnPending result (IsArmed cx.new) }
        ensures kept { Keeps cx.old cx.new }
    {
        let link = self.link.as_mut().unwrap();
        match link.poll_read(cx, &mut [0; 1]) {
            Poll::Ready(_) => Poll::Ready(()),
            Poll::Pending => Poll::Pending,
        }
    }
}

impl Future for Reading {
    type Output = Result<Ended<SmallLink>, AllocError>;

    ghost can_poll = { λ f. IsSome f.link };

    ghost gives = { λ _ r. IsOk r };

    fn poll(&mut self, cx: &mut Context<'_>) -> Poll<Result<Ended<SmallLink>, AllocError>> {
        if let Poll::Pending = self.reads(cx) {
            return Poll::Pending;
        }
        Poll::Ready(Ok(Ended {
            link: self.link.take().unwrap(),
            how: How::Served,
        }))
    }
}

impl LinkHolder<SmallLink> for Reading {
    ghost may_stand = { λ _ _. ⊤ };

    ghost stands_by_gives = { λ _ _ _ _ _. tt };

    fn into_link(self) -> SmallLink {
        self.link.unwrap()
    }
}
