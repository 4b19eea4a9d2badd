ghost use Rattle.service_combine.specs.Shown.{pipeline_factory_part, pipeline_part};

use crate::{Pipeline, PipelineFactory};
use service_core::{IntoService, IntoServiceFactory, Service, ServiceFactory};
use std::marker::PhantomData;

/// A pipeline that begins with `service` (`actix_service::pipeline`).
pub fn pipeline<I, S, Req>(service: I) -> Pipeline<S, Req>
where
    I: IntoService<S, Req>,
    S: Service<Req>,
    ensures { I.turns_into service (pipeline_part result) }
{
    Pipeline {
        service: service.into_service(),
        request: PhantomData,
    }
}

/// A pipeline of factories that begins with `factory` (`actix_service::pipeline_factory`).
pub fn pipeline_factory<I, SF, Req>(factory: I) -> PipelineFactory<SF, Req>
where
    I: IntoServiceFactory<SF, Req>,
    SF: ServiceFactory<Req>,
    ensures { I.turns_into factory (pipeline_factory_part result) }
{
    PipelineFactory {
        factory: factory.into_factory(),
        request: PhantomData,
    }
}
