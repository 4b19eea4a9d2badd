ghost use Rattle.std.specs.Prelude.{◌≡◌, ◌-◌, ◌^◌, ◌<◌, ◌≤◌, false, IfOk, IsSomeAnd};
ghost use Rattle.service_core.specs.Shown.{wait_count, watched_future};
ghost use Rattle.server_commands.specs.Signals.{behind, signal_of};
ghost use Rattle.server.specs.Settings.{IsInRange, default_settings};

use crate::server::Server;
use crate::settings::Settings;
use futures::Future;
use server_commands::{
    CommandQueue, Commands, GracefulShutdownSignal, HandleCommands, ServerHandle, WithSignal,
};
use std::alloc::{AllocError, Global};
use std::sync::Wait;

/// Settings of a server that is to run (`actix-server`'s `ServerBuilder`).
#[derive(Drop)]
pub struct ServerBuilder {
    pub(crate) settings: Settings,
    // Where the handles of the server post commands.
    pub(crate) queue: CommandQueue,
    ghost ranges: { IsInRange settings },
}

impl ServerBuilder {
    ghost use Rattle.server.specs.Servers.{factory_of, server_settings, settings_of};

    /// A builder with the default settings: 2 workers of at most 25,600 connections each, rings of 128 places, 8 failures in a
    /// row, 30 seconds. It is refused only for want of memory.
    pub fn new(alloc: Global) -> Result<ServerBuilder, AllocError>
        ensures { IfOk result (λ builder. settings_of builder ≡ default_settings) }
    {
        Ok(ServerBuilder {
            settings: Settings {
                workers: 2,
                limit: 25_600,
                ring: 128,
                retry_limit: 8,
                shutdown_timeout: 30,
            },
            queue: CommandQueue::new(alloc)?,
        })
    }

    // The builder with other settings.
    fn set(self, settings: Settings) -> ServerBuilder
        requires { IsInRange settings }
        ensures { settings_of result ≡ settings }
    {
        let ServerBuilder { settings: _, queue } = self;
        ServerBuilder { settings, queue }
    }

    /// What is set.
    pub fn settings(&self) -> Settings
        ensures { result ≡ settings_of self.now }
    {
        self.settings
    }

    /// Sets how many workers there are, each on a thread of its own.
    pub fn workers(self, num: usize) -> ServerBuilder
        requires some { 1 ≤ num }
        requires few { num ≤ 512 }
        ensures { settings_of result ≡ record (settings_of self) { workers = num } }
    {
        let settings = Settings {
            workers: num,
            ..self.settings
        };
        self.set(settings)
    }

    /// Sets how many connections a worker has at once, at most.
    pub fn max_concurrent_connections(self, num: u64) -> ServerBuilder
        requires some { 1 ≤ num }
        requires limited { num < 2 ^ 64 - 1 }
        ensures { settings_of result ≡ record (settings_of self) { limit = num } }
    {
        let settings = Settings {
            limit: num,
            ..self.settings
        };
        self.set(settings)
    }

    /// The same by its old name (`actix-server`'s `maxconn`).
    pub fn maxconn(self, num: u64) -> ServerBuilder
        requires some { 1 ≤ num }
        requires limited { num < 2 ^ 64 - 1 }
        ensures { settings_of result ≡ record (settings_of self) { limit = num } }
    {
        self.max_concurrent_connections(num)
    }

    /// Sets how many seconds a worker has to serve its connections to their end after a graceful stop.
    pub fn shutdown_timeout(self, sec: u64) -> ServerBuilder
        requires { sec < 2 ^ 32 }
        ensures { settings_of result ≡ record (settings_of self) { shutdown_timeout = sec } }
    {
        let settings = Settings {
            shutdown_timeout: sec,
            ..self.settings
        };
        self.set(settings)
    }

    /// The commands that the handles of the server post (`Server::handle`), to be given to `serve`.
    pub fn handle_commands<W: Wait + Clone + Drop>(
        &self,
        rt: &W,
    ) -> Result<HandleCommands<W>, AllocError>
        ensures stops { IfOk result (λ commands. ⟦<HandleCommands<W> as Commands>⟧.stops commands ≡ 0) }
        ensures idles { IfOk result (λ commands. ⟦<HandleCommands<W> as Commands>⟧.idles commands ≡ 0) }
    {
        self.queue.commands(rt)
    }

    /// What tells the server to pause, to go on and to stop, as `Server::handle` of the server to be. Services that tell it so are made
    /// before it is.
    pub fn handle(&self) -> Result<ServerHandle, AllocError> {
        self.queue.handle()
    }

    /// The commands of another source, and one graceful stop once the signal has come
    /// (`actix-server`'s `ServerBuilder::shutdown_signal`).
    pub fn shutdown_signal<Fut: Future<Output = ()>, Co: Commands + Drop>(
        &self,
        signal: Fut,
        commands: Co,
    ) -> Result<WithSignal<Fut, Co>, AllocError>
        requires { Fut.can_poll signal }
        ensures behind { IfOk result (λ made. behind made ≡ commands) }
        ensures signal { IfOk result (λ made. IsSomeAnd (signal_of made) (λ s. (watched_future s ≡ signal) × (wait_count s ≡ 0))) }
        ensures stops { IfOk result (λ made. ⟦<WithSignal<Fut, Co> as Commands>⟧.stops made ≡ 0) }
        ensures idles { IfOk result (λ made. ⟦<WithSignal<Fut, Co> as Commands>⟧.idles made ≡ 0) }
        ensures ended { IfOk result (λ made. ⟦<WithSignal<Fut, Co> as Commands>⟧.ended made ≡ false) }
    {
        self.queue.shutdown_signal(signal, commands)
    }

    /// What becomes ready once the server was told to stop gracefully, for services that serve for long.
    pub fn graceful_shutdown_signal(&self) -> Result<GracefulShutdownSignal, AllocError> {
        self.queue.graceful_shutdown_signal()
    }

    /// Does nothing: this server hears no signals of the system.
    pub fn disable_signals(self) -> ServerBuilder
        ensures { settings_of result ≡ settings_of self }
    {
        self
    }

    /// Sets how many places each ring between the acceptor and a worker has. (`actix-server` has queues without a bound.)
    pub fn ring(self, places: usize) -> ServerBuilder
        requires some { 1 ≤ places }
        requires few { places ≤ 4096 }
        ensures { settings_of result ≡ record (settings_of self) { ring = places } }
    {
        let settings = Settings {
            ring: places,
            ..self.settings
        };
        self.set(settings)
    }

    /// Sets how often a listener may fail with no connection between before it is given up. (`actix-server` tries for ever.)
    pub fn retry_limit(self, n: u64) -> ServerBuilder
        requires { 1 ≤ n }
        ensures { settings_of result ≡ record (settings_of self) { retry_limit = n } }
    {
        let settings = Settings {
            retry_limit: n,
            ..self.settings
        };
        self.set(settings)
    }

    /// The server of the services that the factory makes. It serves nothing until `serve` is called.
    pub fn run<F>(self, factory: F) -> Server<F>
        ensures factory { factory_of result ≡ factory }
        ensures settings { server_settings result ≡ settings_of self }
    {
        let ServerBuilder { settings, queue } = self;
        Server {
            factory,
            settings,
            queue,
        }
    }
}
