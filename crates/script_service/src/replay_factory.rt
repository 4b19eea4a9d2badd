//! The factory of a replayed script's services, by token.
ghost use Rattle.std.specs.Prelude.{◌≡◌, None, Ok, IfOk};
ghost use Rattle.std.specs.Arc.{arc_value};
ghost use Rattle.std.specs.Option.{is_some};
ghost use Rattle.service_core.specs.Shown.{applied, wrapped};
ghost use Rattle.futures.specs.declared.task.Poll.TheVariants.{Ready as PollReady};
ghost use Rattle.cors_rules.specs.Refusing.{config_error};
ghost use Rattle.http_service.specs.Keeping.{stays_open};
ghost use Rattle.script_service.specs.Factories.{RefusesSite, replay_builder, replay_site};
ghost use Rattle.script_service.specs.Serving.{LeavesScript, ServesScript};
ghost use Rattle.script_service.specs.Sites.{site_by};

use crate::parts::{Factory, Policed};
use crate::replay_services::ReplayServices;
use cors_answer::Cors;
use handlers::{EchoUpgrade, HandlerService, ScriptExpect};
use http_service::{HttpService, KeepAlive};
use script::{ScriptRule, Settings};
use server_run::ServerServiceFactory;
use service_core::{Link, apply};
use std::alloc::{AllocError, Global};
use std::sync::Arc;

/// Makes, for every listener, connections that are served by one handler under one policy, if that is not refused.
#[derive(Drop)]
pub struct ReplayFactory {
    pub(crate) cors: Arc<Cors<ScriptRule>>,
    pub(crate) settings: Settings,
}

impl ReplayFactory {
    /// A factory of connections that are served as the settings say, under the policy that the builder has made.
    pub fn new(
        alloc: Global,
        cors: Cors<ScriptRule>,
        settings: Settings,
    ) -> Result<ReplayFactory, AllocError>
        ensures cors { IfOk result (λ factory. replay_builder factory ≡ cors) }
        ensures site { IfOk result (λ factory. replay_site factory ≡ site_by cors.policy settings) }
    {
        Ok(ReplayFactory {
            cors: Arc::new(alloc, cors)?,
            settings,
        })
    }

    // What echoes upgrades, if the script asks for that.
    fn echo(&self, alloc: Global) -> Option<EchoUpgrade>
        ensures { is_some result ≡ self.now.settings.echoes_upgrades }
    {
        if self.settings.echoes_upgrades {
            Some(EchoUpgrade { alloc })
        } else {
            None
        }
    }

    // Whether connections stay open.
    fn keep_alive(&self) -> KeepAlive
        ensures { stays_open result ≡ self.now.settings.keeps_alive }
    {
        if self.settings.keeps_alive {
            KeepAlive::default()
        } else {
            KeepAlive::Disabled
        }
    }

    // The factory of connections over this one of the services of requests.
    fn over<L: Link>(&self, alloc: Global, policed: Policed) -> Factory<L>
        ensures service { result.service ≡ policed }
        ensures expect { result.expect ≡ record { refuses = self.now.settings.refuses_expectations } }
        ensures upgrade { is_some result.upgrade ≡ self.now.settings.echoes_upgrades }
        ensures limits { result.config.limits ≡ self.now.settings.limits }
        ensures keep_alive { stays_open result.config.keep_alive ≡ self.now.settings.keeps_alive }
    {
        let echo = self.echo(alloc);
        HttpService::build(alloc)
            .keep_alive(self.keep_alive())
            .limits(self.settings.limits)
            .expect(ScriptExpect {
                refuses: self.settings.refuses_expectations,
            })
            .finish(policed)
            .upgrade(echo)
            .tcp()
    }

    // The factory of the services of requests.
    fn policed(&self, alloc: Global) -> Result<Policed, AllocError>
        ensures applied { IfOk result (λ policed. arc_value (applied policed) ≡ replay_builder self.now) }
        ensures wrapped { IfOk result (λ policed. (wrapped policed).handler ≡ self.now.settings.handler) }
    {
        let cors = Arc::try_clone(&self.cors)?;
        let handler = HandlerService {
            alloc,
            handler: self.settings.handler,
        };
        apply(alloc, cors, handler)
    }
}

impl Clone for ReplayFactory {
    ghost is_clone = { λ original copy. (replay_builder copy ≡ replay_builder original) × (replay_site copy ≡ replay_site original) };

    fn clone(&self) -> Result<ReplayFactory, AllocError> {
        Ok(ReplayFactory {
            cors: Arc::try_clone(&self.cors)?,
            settings: self.settings,
        })
    }
}

impl<L: Link> ServerServiceFactory<L> for ReplayFactory {
    type Factory = ReplayServices<L>;

    ghost may_serve = { λ f _ link ended. ServesScript (replay_site f) L.Link link ended };

    ghost may_leave = { λ f _ link back. LeavesScript (replay_site f) L.Link link back };

    ghost may_ready = { λ _ _ answer. answer ≡ PollReady (Ok tt) };

    ghost may_init = { λ f _ error. RefusesSite (replay_builder f) error };

    ghost may_make = { λ f _. config_error (replay_builder f) ≡ None };

    fn create(&self, alloc: Global, _token: usize) -> Result<ReplayServices<L>, AllocError> {
        let policed = self.policed(alloc)?;
        Ok(ReplayServices {
            factory: self.over(alloc, policed),
        })
    }

    ghost same_served = { λ _ _ link ended serves. serves.same };

    ghost same_left = { λ _ _ link back leaves. leaves.same };
}
