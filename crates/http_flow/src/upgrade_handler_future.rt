ghost use Rattle.std.specs.Prelude.{◌≡◌, IsSome, Ok, refl};
ghost use Rattle.std.proofs.Common.{rules};
ghost use Rattle.service_core.specs.Holding.{OfKept};
ghost use Rattle.http_flow.specs.Handling.{handed_by};

use crate::{Handed, Never};
use futures::Future;
use futures::task::{Context, Poll};
use service_core::{Link, LinkHolder};

/// Future of a call of `UpgradeHandler`: the link is handed back at its first poll.
#[derive(Drop)]
pub struct UpgradeHandlerFuture<L> {
    pub(crate) handed: Option<Handed<L>>,
}

impl<L: Link> Future for UpgradeHandlerFuture<L> {
    type Output = Result<Handed<L>, Never>;

    ghost can_poll = { λ f. IsSome (handed_by f) };

    ghost gives = { λ f r. OfKept (handed_by f) (λ handed. r ≡ Ok handed) };

    fn poll(&mut self, _cx: &mut Context<'_>) -> Poll<Result<Handed<L>, Never>> {
        Poll::Ready(Ok(self.handed.take().unwrap()))
    }
}

impl<L: Link> LinkHolder<L> for UpgradeHandlerFuture<L> {
    ghost may_stand = { λ f link. OfKept (handed_by f) (λ handed. link ≡ handed.link) };

    ghost stands_by_gives = { λ wide narrow within link h.
        let given = within (Ok h.value) (record { value = h.value; is = h.is; holds = refl }) in
        record { value = given.value; is = given.is; holds = Prim.search rules } };

    fn into_link(self) -> L {
        let UpgradeHandlerFuture { handed } = self;
        let Handed { link, end: _ } = handed.unwrap();
        link
    }
}
