ghost use Rattle.std.specs.Prelude.{◌≡◌, ⊤, Ok};
ghost use Rattle.std.proofs.Common.{rules};
ghost use Rattle.futures.specs.declared.task.Poll.TheVariants.{Ready as PollReady};
ghost use Rattle.handlers.specs.Echoing.{BeginsEcho, MayEcho};

use crate::Echo;
use futures::task::{Context, Poll};
use http_flow::{Framed, Handed, Never};
use http1_plain::Request;
use service_core::{Link, Ready, Service, ServiceFactory, ok};
use std::alloc::Global;

/// An upgrade service that writes back each byte that it reads, those behind the head first. It is always ready.
///
/// It is the factory of such services too.
#[derive(Drop)]
pub struct EchoUpgrade {
    /// Where its futures take their memory.
    pub alloc: Global,
}

impl<L: Link> Service<(Request, Framed<L>)> for EchoUpgrade {
    type Response = Handed<L>;

    type Error = Never;

    type Future = Echo<L>;

    ghost may = { λ _ asked r. MayEcho L.Link asked r };

    ghost may_ready = { λ _ answer. answer ≡ PollReady (Ok tt) };

    ghost may_begin = { λ _ asked f. BeginsEcho asked f };

    ghost begun_gives = { Prim.search rules };

    fn poll_ready(&self, _cx: &mut Context<'_>) -> Poll<Result<(), Never>> {
        Poll::Ready(Ok(()))
    }

    fn call(&self, asked: (Request, Framed<L>)) -> Echo<L> {
        let (_, framed) = asked;
        let Framed { link, unread } = framed;
        Echo {
            link: Some(link),
            waiting: unread,
            buffer: Vec::new(self.alloc),
        }
    }
}

impl<L: Link> ServiceFactory<(Request, Framed<L>)> for EchoUpgrade {
    type Response = Handed<L>;

    type Error = Never;

    type Config = ();

    type Service = EchoUpgrade;

    type InitError = Never;

    type Future = Ready<Result<EchoUpgrade, Never>>;

    ghost may = { λ _ _ asked r. MayEcho L.Link asked r };

    ghost may_ready = { λ _ _ answer. answer ≡ PollReady (Ok tt) };

    ghost may_begin = { λ _ _ asked f. BeginsEcho asked f };

    ghost may_init = { λ _ _ _. ⊥ };

    ghost may_make = { λ _ _. ⊤ };

    ghost begun_gives = { Prim.search rules };

    fn new_service(&self, _cfg: ()) -> Ready<Result<EchoUpgrade, Never>> {
        ok(EchoUpgrade { alloc: self.alloc })
    }
}
