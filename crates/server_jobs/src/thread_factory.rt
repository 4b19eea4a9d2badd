use server_run::ServerServiceFactory;
use service_core::{Link, Service, ServiceFactory};

/// A factory whose services can be made and run by threads of their own. Every factory of which all is `Send` is one.
pub trait ThreadFactory<L: Link>: ServerServiceFactory<
    L,
    Factory: ServiceFactory<
        L,
        Service: Service<L, Future: Send> + Send,
        Error: Send,
        InitError: Drop + Send,
        Future: Send,
    >
        + Send,
>
    + Clone
    + Send {}

impl<
    L: Link,
    F: ServerServiceFactory<
        L,
        Factory: ServiceFactory<
            L,
            Service: Service<L, Future: Send> + Send,
            Error: Send,
            InitError: Drop + Send,
            Future: Send,
        >
            + Send,
    >
        + Clone
        + Send,
> ThreadFactory<L> for F {}
