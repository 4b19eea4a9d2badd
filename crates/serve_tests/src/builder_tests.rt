//! How a server is set.
use server::{Server, ServerBuilder, Settings};
use std::alloc::{AllocError, Global};
use std::test::Fail;

const DEFAULTS: Settings = Settings {
    workers: 2,
    limit: 25_600,
    ring: 128,
    retry_limit: 8,
    shutdown_timeout: 30,
};

// Whether a builder is set so.
fn is_set(made: Result<ServerBuilder, AllocError>, wanted: Settings) -> Result<bool, AllocError> {
    Ok(made?.settings() == wanted)
}

// Whether a builder begins with the defaults, by whatever name it is made.
fn begins_with_the_defaults(alloc: Global) -> Result<bool, AllocError> {
    Ok(
        is_set(server::new(alloc), DEFAULTS)?
            && is_set(ServerBuilder::new(alloc), DEFAULTS)?
            && is_set(Server::build(alloc), DEFAULTS)?,
    )
}

#[test]
fn a_builder_begins_with_the_defaults(rt: HostRuntime) -> Result<(), Fail> {
    assert!(rt; begins_with_the_defaults(rt.alloc())?);
    Ok(())
}

// A builder of which all is set.
fn set(alloc: Global) -> Result<ServerBuilder, AllocError> {
    Ok(
        server::new(alloc)?
            .workers(3)
            .max_concurrent_connections(7)
            .ring(16)
            .retry_limit(5)
            .shutdown_timeout(60)
            .disable_signals(),
    )
}

// Whether a builder keeps what is set, and a limit under its old name.
fn keeps_what_is_set(alloc: Global) -> Result<bool, AllocError> {
    let wanted = Settings {
        workers: 3,
        limit: 7,
        ring: 16,
        retry_limit: 5,
        shutdown_timeout: 60,
    };
    let limited = Settings { limit: 9, ..wanted };
    Ok(is_set(set(alloc), wanted)? && set(alloc)?.maxconn(9).settings() == limited)
}

#[test]
fn a_builder_keeps_what_is_set(rt: HostRuntime) -> Result<(), Fail> {
    assert!(rt; keeps_what_is_set(rt.alloc())?);
    Ok(())
}
