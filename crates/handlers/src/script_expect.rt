ghost use Rattle.std.specs.Prelude.{◌≡◌, ⊤, Ok, Some};
ghost use Rattle.std.proofs.Common.{rules};
ghost use Rattle.futures.specs.declared.task.Poll.TheVariants.{Ready as PollReady};
ghost use Rattle.service_core.specs.Shown.{ready_value};
ghost use Rattle.handlers.specs.Expecting.{expect_result};

use crate::ExpectationFault;
use futures::task::{Context, Poll};
use http_flow::Never;
use http1_plain::Request;
use service_core::{Ready, Service, ServiceFactory, err, ok};

/// The expect service of a script, which is always ready: each body may come, or none.
///
/// It is the factory of such services too.
#[derive(Clone, Copy, Debug)]
pub struct ScriptExpect {
    /// No body may come.
    pub refuses: bool,
}

impl Service<Request> for ScriptExpect {
    type Response = Request;

    type Error = ExpectationFault;

    type Future = Ready<Result<Request, ExpectationFault>>;

    ghost may = { λ s q r. r ≡ expect_result s.refuses q };

    ghost may_ready = { λ _ answer. answer ≡ PollReady (Ok tt) };

    ghost may_begin = { λ s q f. ready_value f ≡ Some (expect_result s.refuses q) };

    ghost begun_gives = { Prim.search rules };

    fn poll_ready(&self, _cx: &mut Context<'_>) -> Poll<Result<(), ExpectationFault>> {
        Poll::Ready(Ok(()))
    }

    fn call(&self, req: Request) -> Ready<Result<Request, ExpectationFault>> {
        if self.refuses {
            drop(req);
            err(ExpectationFault::Refused)
        } else {
            ok(req)
        }
    }
}

impl ServiceFactory<Request> for ScriptExpect {
    type Response = Request;

    type Error = ExpectationFault;

    type Config = ();

    type Service = ScriptExpect;

    type InitError = Never;

    type Future = Ready<Result<ScriptExpect, Never>>;

    ghost may = { λ f _ q r. r ≡ expect_result f.refuses q };

    ghost may_ready = { λ _ _ answer. answer ≡ PollReady (Ok tt) };

    ghost may_begin = { λ f _ q future. ready_value future ≡ Some (expect_result f.refuses q) };

    ghost may_init = { λ _ _ _. ⊥ };

    ghost may_make = { λ _ _. ⊤ };

    ghost begun_gives = { Prim.search rules };

    fn new_service(&self, _cfg: ()) -> Ready<Result<ScriptExpect, Never>> {
        ok(*self)
    }
}
