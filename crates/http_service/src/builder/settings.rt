//! The calls of the builder that set a value.
ghost use Rattle.std.specs.Prelude.{◌≡◌, ◌≤◌, Some, true};

use crate::builder::HttpServiceBuilder;
use crate::keep_alive::KeepAlive;
use http1_plain::Limits;
use service_core::Peer;
use std::time::Duration;

impl<T, S, X, U> HttpServiceBuilder<T, S, X, U> {
    /// How long connections stay open between requests (actix-http, `HttpServiceBuilder::keep_alive`).
    pub fn keep_alive<W: Into<KeepAlive>>(mut self, val: W) -> Self
        ensures value { W.converts val result.config.keep_alive }
        ensures rest { result ≡ record self { config = record self.config { keep_alive = result.config.keep_alive } } }
    {
        self.config.keep_alive = val.into();
        self
    }

    /// Connections come over a secure channel (actix-http, `HttpServiceBuilder::secure`).
    pub fn secure(mut self) -> Self
        ensures { result ≡ record self { config = record self.config { secure = true } } }
    {
        self.config.secure = true;
        self
    }

    /// The address that connections come to (actix-http, `HttpServiceBuilder::local_addr`).
    pub fn local_addr(mut self, addr: Peer) -> Self
        ensures { result ≡ record self { config = record self.config { local_addr = Some addr } } }
    {
        self.config.local_addr = Some(addr);
        self
    }

    /// How long a client may take for the head of a request. No length: as long as it likes
    /// (actix-http, `HttpServiceBuilder::client_request_timeout`).
    pub fn client_request_timeout(mut self, dur: Duration) -> Self
        ensures { result ≡ record self { config = record self.config { client_request_timeout = dur } } }
    {
        self.config.client_request_timeout = dur;
        self
    }

    /// Another name of `client_request_timeout` (actix-http, `HttpServiceBuilder::client_timeout`).
    pub fn client_timeout(self, dur: Duration) -> Self
        ensures { result ≡ record self { config = record self.config { client_request_timeout = dur } } }
    {
        self.client_request_timeout(dur)
    }

    /// How long a connection may take to end. No length: as long as it likes
    /// (actix-http, `HttpServiceBuilder::client_disconnect_timeout`).
    pub fn client_disconnect_timeout(mut self, dur: Duration) -> Self
        ensures { result ≡ record self { config = record self.config { client_disconnect_timeout = dur } } }
    {
        self.config.client_disconnect_timeout = dur;
        self
    }

    /// Another name of `client_disconnect_timeout` (actix-http, `HttpServiceBuilder::client_disconnect`).
    pub fn client_disconnect(self, dur: Duration) -> Self
        ensures { result ≡ record self { config = record self.config { client_disconnect_timeout = dur } } }
    {
        self.client_disconnect_timeout(dur)
    }

    /// Whether small pieces are sent at once, by `TCP_NODELAY` (actix-http, `HttpServiceBuilder::tcp_nodelay`).
    pub fn tcp_nodelay(mut self, nodelay: bool) -> Self
        ensures { result ≡ record self { config = record self.config { tcp_nodelay = Some nodelay } } }
    {
        self.config.tcp_nodelay = Some(nodelay);
        self
    }

    /// Whether a client may close its half of a connection and still be answered
    /// (actix-http, `HttpServiceBuilder::h1_allow_half_closed`).
    pub fn h1_allow_half_closed(mut self, allow: bool) -> Self
        ensures { result ≡ record self { config = record self.config { h1_allow_half_closed = allow } } }
    {
        self.config.h1_allow_half_closed = allow;
        self
    }

    /// How many bytes of answers may wait to be written, at least 1
    /// (actix-http, `HttpServiceBuilder::h1_write_buffer_size`).
    pub fn h1_write_buffer_size(mut self, size: usize) -> Self
        requires { 1 ≤ size }
        ensures { result ≡ record self { config = record self.config { h1_write_buffer_size = size } } }
    {
        self.config.h1_write_buffer_size = size;
        self
    }

    /// The window that a stream of HTTP/2 begins with, in bytes
    /// (actix-http, `HttpServiceBuilder::h2_initial_window_size`).
    pub fn h2_initial_window_size(mut self, size: u32) -> Self
        ensures { result ≡ record self { config = record self.config { h2_initial_window_size = size } } }
    {
        self.config.h2_initial_window_size = size;
        self
    }

    /// The window that a connection of HTTP/2 begins with, in bytes
    /// (actix-http, `HttpServiceBuilder::h2_initial_connection_window_size`).
    pub fn h2_initial_connection_window_size(mut self, size: u32) -> Self
        ensures { result ≡ record self { config = record self.config { h2_initial_connection_window_size = size } } }
    {
        self.config.h2_initial_connection_window_size = size;
        self
    }

    /// Whether connections are told of a graceful shutdown (actix-http, `HttpServiceBuilder::graceful_shutdown_signal`).
    pub fn graceful_shutdown_signal(mut self, wanted: bool) -> Self
        ensures { result ≡ record self { config = record self.config { graceful_shutdown_signal = wanted } } }
    {
        self.config.graceful_shutdown_signal = wanted;
        self
    }

    /// How many bytes of a head and of a body are read.
    pub fn limits(mut self, limits: Limits) -> Self
        ensures { result ≡ record self { config = record self.config { limits = limits } } }
    {
        self.config.limits = limits;
        self
    }
}
