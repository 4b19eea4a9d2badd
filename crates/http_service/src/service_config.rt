//! The settings of a service of connections.
ghost use Rattle.std.specs.Prelude.{◌≡◌, ◌≤◌};
ghost use Rattle.http_service.specs.Config.{default_config};

use crate::keep_alive::KeepAlive;
use http1_plain::Limits;
use service_core::Peer;
use std::marker::Model;
use std::time::Duration;

/// The settings of a service of connections (actix-http, `ServiceConfig`). A contract sees its twelve values.
#[derive(Clone, Copy)]
pub struct ServiceConfig {
    pub(crate) keep_alive: KeepAlive,
    pub(crate) secure: bool,
    pub(crate) local_addr: Option<Peer>,
    pub(crate) client_request_timeout: Duration,
    pub(crate) client_disconnect_timeout: Duration,
    pub(crate) tcp_nodelay: Option<bool>,
    pub(crate) h1_allow_half_closed: bool,
    pub(crate) h1_write_buffer_size: usize,
    pub(crate) h2_initial_window_size: u32,
    pub(crate) h2_initial_connection_window_size: u32,
    pub(crate) graceful_shutdown_signal: bool,
    pub(crate) limits: Limits,
}

impl Model for ServiceConfig {
    ghost use Rattle.std.specs.Prelude.{◌≤◌};
    ghost use Rattle.http_service.specs.Config.{Config};

    ghost Value = { Config };

    ghost view = { λ c. record {
      keep_alive = c.keep_alive;
      secure = c.secure;
      local_addr = c.local_addr;
      client_request_timeout = c.client_request_timeout;
      client_disconnect_timeout = c.client_disconnect_timeout;
      tcp_nodelay = c.tcp_nodelay;
      h1_allow_half_closed = c.h1_allow_half_closed;
      h1_write_buffer_size = c.h1_write_buffer_size;
      h2_initial_window_size = c.h2_initial_window_size;
      h2_initial_connection_window_size = c.h2_initial_connection_window_size;
      graceful_shutdown_signal = c.graceful_shutdown_signal;
      limits = c.limits;
    } };

    ghost invariant = { λ c. 1 ≤ c.h1_write_buffer_size };

    ghost inverse = { λ v. record {
      keep_alive = v.keep_alive;
      secure = v.secure;
      local_addr = v.local_addr;
      client_request_timeout = v.client_request_timeout;
      client_disconnect_timeout = v.client_disconnect_timeout;
      tcp_nodelay = v.tcp_nodelay;
      h1_allow_half_closed = v.h1_allow_half_closed;
      h1_write_buffer_size = v.h1_write_buffer_size;
      h2_initial_window_size = v.h2_initial_window_size;
      h2_initial_connection_window_size = v.h2_initial_connection_window_size;
      graceful_shutdown_signal = v.graceful_shutdown_signal;
      limits = v.limits;
    } };
}

impl ServiceConfig {
    /// How long a connection stays open between requests (actix-http, `ServiceConfig::keep_alive`).
    pub fn keep_alive(&self) -> KeepAlive
        ensures { result ≡ self.now.keep_alive }
    {
        self.keep_alive
    }

    /// Whether connections come over a secure channel (actix-http, `ServiceConfig::secure`).
    pub fn secure(&self) -> bool
        ensures { result ≡ self.now.secure }
    {
        self.secure
    }

    /// The address that connections come to, where it is known (actix-http, `ServiceConfig::local_addr`).
    pub fn local_addr(&self) -> Option<Peer>
        ensures { result ≡ self.now.local_addr }
    {
        self.local_addr
    }

    /// How long a client may take for the head of a request. No length: as long as it likes
    /// (actix-http, `HttpServiceBuilder::client_request_timeout`).
    pub fn client_request_timeout(&self) -> Duration
        ensures { result ≡ self.now.client_request_timeout }
    {
        self.client_request_timeout
    }

    /// How long a connection may take to end. No length: as long as it likes
    /// (actix-http, `HttpServiceBuilder::client_disconnect_timeout`).
    pub fn client_disconnect_timeout(&self) -> Duration
        ensures { result ≡ self.now.client_disconnect_timeout }
    {
        self.client_disconnect_timeout
    }

    /// Whether small pieces are sent at once (`TCP_NODELAY`), where that is set
    /// (actix-http, `HttpServiceBuilder::tcp_nodelay`).
    pub fn tcp_nodelay(&self) -> Option<bool>
        ensures { result ≡ self.now.tcp_nodelay }
    {
        self.tcp_nodelay
    }

    /// Whether a client may close its half of a connection and still be answered
    /// (actix-http, `HttpServiceBuilder::h1_allow_half_closed`).
    pub fn h1_allow_half_closed(&self) -> bool
        ensures { result ≡ self.now.h1_allow_half_closed }
    {
        self.h1_allow_half_closed
    }

    /// How many bytes of answers may wait to be written, at least 1
    /// (actix-http, `HttpServiceBuilder::h1_write_buffer_size`).
    pub fn h1_write_buffer_size(&self) -> usize
        ensures value { result ≡ self.now.h1_write_buffer_size }
        ensures above { 1 ≤ self.now.h1_write_buffer_size }
    {
        self.h1_write_buffer_size
    }

    /// The window that a stream of HTTP/2 begins with, in bytes
    /// (actix-http, `HttpServiceBuilder::h2_initial_window_size`).
    pub fn h2_initial_window_size(&self) -> u32
        ensures { result ≡ self.now.h2_initial_window_size }
    {
        self.h2_initial_window_size
    }

    /// The window that a connection of HTTP/2 begins with, in bytes
    /// (actix-http, `HttpServiceBuilder::h2_initial_connection_window_size`).
    pub fn h2_initial_connection_window_size(&self) -> u32
        ensures { result ≡ self.now.h2_initial_connection_window_size }
    {
        self.h2_initial_connection_window_size
    }

    /// Whether connections are told of a graceful shutdown (actix-http, `HttpServiceBuilder::graceful_shutdown_signal`).
    pub fn graceful_shutdown_signal(&self) -> bool
        ensures { result ≡ self.now.graceful_shutdown_signal }
    {
        self.graceful_shutdown_signal
    }

    /// How many bytes of a head and of a body are read.
    pub fn limits(&self) -> Limits
        ensures { result ≡ self.now.limits }
    {
        self.limits
    }
}

impl Default for ServiceConfig {
    ghost is_default = { λ config. config ≡ default_config };

    /// A keep-alive and a request timeout of 5 seconds, a write buffer of 32,768 bytes, windows of 1 and 2 MiB, clients may
    /// close their half, and nothing else is set.
    fn default() -> ServiceConfig {
        ServiceConfig {
            keep_alive: KeepAlive::default(),
            secure: false,
            local_addr: None,
            client_request_timeout: Duration::from_secs(5),
            client_disconnect_timeout: Duration::from_secs(0),
            tcp_nodelay: None,
            h1_allow_half_closed: true,
            h1_write_buffer_size: 32_768,
            h2_initial_window_size: 1_048_576,
            h2_initial_connection_window_size: 2_097_152,
            graceful_shutdown_signal: false,
            limits: Limits::default(),
        }
    }
}
