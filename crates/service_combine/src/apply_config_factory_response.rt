ghost use Rattle.std.specs.Prelude.{◌≡◌, ⊤, Ok, Err};
ghost use Rattle.std.specs.Arc.{arc_value};
ghost use Rattle.futures.specs.Poll.{OnPending};
ghost use Rattle.service_core.specs.Polls.{Polls};
ghost use Rattle.service_combine.specs.Applying.{Answers};
ghost use Rattle.service_combine.specs.Staging.{ConfigWaited, MakesFrom, ThroughService};
ghost use Rattle.service_combine.specs.declared.config_stage.ConfigStage.TheVariants.{First, Second, Refused, Done};

use crate::config_stage::ConfigStage;
use crate::made_ready::MadeReady;
use futures::Future;
use futures::task::{Context, Poll};
use service_core::{NoMemory, Service, ServiceFactory, Watched};
use std::marker::PhantomData;

/// Future of a service of `ApplyConfigServiceFactory`: the factory's service is made, then it is ready, then the
/// closure's future gives the service.
#[derive(Drop)]
pub struct ApplyConfigServiceFactoryResponse<SF, Req, F, Cfg, Fut, S>
where
    SF: ServiceFactory<Req>,
{
    pub(crate) state: ConfigStage<SF::Future, SF::Service, Req, Cfg, (SF, F), Fut>,
    pub(crate) made: PhantomData<S>,
}

impl<SF, Req, F, Cfg, Fut, S> ApplyConfigServiceFactoryResponse<SF, Req, F, Cfg, Fut, S>
where
    SF: ServiceFactory<Req>,
{
    /// The future where the parts could not be shared: it gives want of memory.
    pub fn refused() -> ApplyConfigServiceFactoryResponse<SF, Req, F, Cfg, Fut, S>
        ensures { result.state ≡ Refused }
    {
        ApplyConfigServiceFactoryResponse {
            state: ConfigStage::Refused,
            made: PhantomData,
        }
    }
}

impl<SF, Req, F, Cfg, Fut, S> Future for ApplyConfigServiceFactoryResponse<SF, Req, F, Cfg, Fut, S>
where
    Req: Drop,
    Cfg: Drop,
    S: Drop,
    SF: ServiceFactory<Req, InitError: From<SF::Error> + NoMemory, Service: Drop> + Drop,
    F: Fn(Cfg, &SF::Service) -> Fut + Drop,
    Fut: Future<Output = Result<S, SF::InitError>>,
{
    type Output = Result<S, SF::InitError>;

    ghost can_poll = { λ m. elim m.state [
      | First w cfg parts ↦ ⟦<MadeReady<SF::Future, SF::Service, Req> as Future>⟧.can_poll w
          × ((s : SF.Service) → ⟦<MadeReady<SF::Future, SF::Service, Req> as Future>⟧.gives w (Ok s)
          → MakesFrom Fut.Future (F.pre (arc_value parts).1) (F.post (arc_value parts).1) (λ _. ⊤) cfg s)
      | Second w ↦ Fut.can_poll w.future
      | Refused ↦ ⊤
      | Done ↦ ⊥
    ] };

    ghost needs = { λ m n. elim m.state [
      | First w cfg parts ↦ ⟦<MadeReady<SF::Future, SF::Service, Req> as Future>⟧.needs w n
      | Second w ↦ Fut.needs w.future n
      | Refused ↦ ⊥
      | Done ↦ ⊥
    ] };

    ghost gives = { λ m r. elim m.state [
      | First w cfg parts ↦ ThroughService (⟦<MadeReady<SF::Future, SF::Service, Req> as Future>⟧.gives w)
          Fut.gives (λ s. Answers (F.post (arc_value parts).1) s cfg) r
      | Second w ↦ Fut.gives w.future r
      | Refused ↦ r ≡ Err SF.InitError.refusal
      | Done ↦ ⊥
    ] };

    fn poll(&mut self, cx: &mut Context<'_>) -> Poll<Result<S, SF::InitError>>
        requires { ⟦<ApplyConfigServiceFactoryResponse<SF, Req, F, Cfg, Fut, S> as Future>⟧.can_poll self.old }
        ensures polls { Polls ⟦<ApplyConfigServiceFactoryResponse<SF, Req, F, Cfg, Fut, S> as Future>⟧
            self.old self.new cx.old cx.new result }
        ensures waited { OnPending result (ConfigWaited self.old.state self.new.state) }
    {
        match &mut self.state {
            ConfigStage::First {
                making,
                cfg: _,
                parts: _,
            } => match making.poll(cx) {
                Poll::Pending => Poll::Pending,
                Poll::Ready(Err(e)) => Poll::Ready(Err(e)),
                Poll::Ready(Ok(service)) => {
                    let (cfg, parts) = self.state.take_first();
                    let mut future = Watched::new((parts.1)(cfg, &service));
                    let polled = future.poll(cx);
                    self.state.go_on(future);
                    polled
                }
            },
            ConfigStage::Second { future } => future.poll(cx),
            ConfigStage::Refused => Poll::Ready(Err(NoMemory::no_memory())),
            ConfigStage::Done => unreachable!(),
        }
    }
}
