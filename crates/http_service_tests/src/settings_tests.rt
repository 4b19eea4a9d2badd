//! Each setting of the builder, and each that a service tells.
use crate::hello::Hello;
use http_flow::{ExpectHandler, UpgradeHandler};
use http_service::{
    H1Service, HttpService, HttpServiceBuilder, HttpTcpFactory, KeepAlive, ServiceConfig,
};
use http1_plain::Limits;
use server_run::MemoryLink;
use service_core::Peer;
use std::alloc::{AllocGlobal, Global};
use std::test::Fail;
use std::time::Duration;

// What is not set.
fn is_default(config: &ServiceConfig) -> bool {
    config.keep_alive() == KeepAlive::Timeout(Duration::from_secs(5))
        && !config.secure()
        && config.local_addr().is_none()
        && config.client_request_timeout() == Duration::from_secs(5)
        && config.client_disconnect_timeout().is_zero()
        && config.tcp_nodelay().is_none()
        && config.h1_allow_half_closed()
        && config.h1_write_buffer_size() == 32_768
        && config.h2_initial_window_size() == 1_048_576
        && config.h2_initial_connection_window_size() == 2_097_152
        && !config.graceful_shutdown_signal()
        && config.limits().head() == Limits::default().head()
        && config.limits().body() == Limits::default().body()
}

// Where connections come to.
const ADDR: Peer = Peer::V4 {
    host: 0x7f00_0001,
    port: 80,
};

type Building = HttpServiceBuilder<MemoryLink, Hello, ExpectHandler, UpgradeHandler>;

// All is set, by the second names where there are two.
fn set(builder: Building, second_names: bool) -> Building {
    let builder = builder
        .keep_alive(KeepAlive::Os)
        .secure()
        .local_addr(ADDR)
        .tcp_nodelay(true)
        .h1_allow_half_closed(false)
        .h1_write_buffer_size(1)
        .h2_initial_window_size(2)
        .h2_initial_connection_window_size(3)
        .graceful_shutdown_signal(true)
        .limits(Limits::new(4, 5));
    if second_names {
        builder
            .client_timeout(Duration::from_secs(6))
            .client_disconnect(Duration::from_secs(7))
    } else {
        builder
            .client_request_timeout(Duration::from_secs(6))
            .client_disconnect_timeout(Duration::from_secs(7))
    }
}

// Whether all of that is set.
fn is_set(config: &ServiceConfig) -> bool {
    config.keep_alive() == KeepAlive::Os
        && config.secure()
        && config.local_addr() == Some(ADDR)
        && config.client_request_timeout() == Duration::from_secs(6)
        && config.client_disconnect_timeout() == Duration::from_secs(7)
        && config.tcp_nodelay() == Some(true)
        && !config.h1_allow_half_closed()
        && config.h1_write_buffer_size() == 1
        && config.h2_initial_window_size() == 2
        && config.h2_initial_connection_window_size() == 3
        && config.graceful_shutdown_signal()
        && config.limits().head() == 4
        && config.limits().body() == 5
}

#[test]
fn nothing_is_set_at_first(rt: HostRuntime) -> Result<(), Fail> {
    let alloc = rt.alloc();
    let service: HttpService<MemoryLink, Hello> = HttpService::new(alloc, Hello::new(alloc));
    let h1: H1Service<MemoryLink, Hello> = HttpServiceBuilder::default(alloc).h1(Hello::new(alloc));
    assert!(rt; is_default(&ServiceConfig::default()));
    assert!(rt; is_default(service.config()));
    assert!(rt; is_default(h1.config()));
    Ok(())
}

#[test]
fn each_form_of_a_service_has_what_was_set(rt: HostRuntime) -> Result<(), Fail> {
    let alloc = rt.alloc();
    for second_names in [false, true] {
        let service = set(HttpService::build(alloc), second_names).finish(Hello::new(alloc));
        let h1 = set(HttpService::build(alloc), second_names).h1(Hello::new(alloc));
        assert!(rt; is_set(service.config()) && is_set(h1.config()));
        assert!(rt; is_set(service.tcp().config()) && is_set(h1.tcp().config()));
    }
    Ok(())
}

#[test]
fn settings_stay_where_a_part_is_replaced(rt: HostRuntime) -> Result<(), Fail> {
    let alloc = rt.alloc();
    let service = set(HttpService::build(alloc), false)
        .expect(ExpectHandler)
        .upgrade(UpgradeHandler)
        .finish(Hello::new(alloc));
    let service: HttpService<MemoryLink, Hello> = service
        .expect(ExpectHandler)
        .upgrade(Some(UpgradeHandler));
    let h1 = set(HttpService::build(alloc), false).h1(Hello::new(alloc));
    let h1: H1Service<MemoryLink, Hello> = h1.expect(ExpectHandler).upgrade(Some(UpgradeHandler));
    assert!(rt; is_set(service.config()) && is_set(h1.config()));
    Ok(())
}

#[test]
fn a_duration_is_a_keep_alive(rt: HostRuntime) {
    let second = Duration::from_secs(1);
    assert_eq!(rt; KeepAlive::from(second), KeepAlive::Timeout(second));
    assert_eq!(rt;
        KeepAlive::from(Duration::from_secs(0)),
        KeepAlive::Disabled
    );
    assert!(rt; KeepAlive::default().stays_open());
    assert!(rt; KeepAlive::Os.stays_open());
    assert!(rt; !KeepAlive::Disabled.stays_open());
}
