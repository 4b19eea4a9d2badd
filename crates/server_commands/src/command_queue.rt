ghost use Rattle.std.specs.Prelude.{◌≡◌, [], false, IfOk, IsSomeAnd};
ghost use Rattle.service_core.specs.Shown.{wait_count, watched_future};
ghost use Rattle.server_commands.specs.Handles.{owed_of};
ghost use Rattle.server_commands.specs.Signals.{behind, signal_of};

use crate::commands::Commands;
use crate::graceful_shutdown_signal::GracefulShutdownSignal;
use crate::handle_commands::HandleCommands;
use crate::posts::Posts;
use crate::server_handle::ServerHandle;
use crate::with_signal::WithSignal;
use futures::Future;
use std::alloc::{AllocError, Global};
use std::sync::{Arc, Mutex, Wait};

/// Where handles post commands for a server, and where it takes them.
#[derive(Drop)]
pub struct CommandQueue {
    alloc: Global,
    posts: Arc<Mutex<Posts>>,
    graceful: GracefulShutdownSignal,
}

impl CommandQueue {
    /// No command was posted, and no stop was given.
    pub fn new(alloc: Global) -> Result<CommandQueue, AllocError> {
        let posts = Arc::new(alloc, Mutex::new(Posts::new(alloc)))?;
        let graceful = GracefulShutdownSignal::new(alloc)?;
        Ok(CommandQueue {
            alloc,
            posts,
            graceful,
        })
    }

    /// What posts commands here.
    pub fn handle(&self) -> Result<ServerHandle, AllocError> {
        let posts = Arc::try_clone(&self.posts)?;
        Ok(ServerHandle::new(self.alloc, posts))
    }

    /// What gives the commands that are posted here, each to one who asks.
    pub fn commands<W: Wait + Clone + Drop>(&self, rt: &W) -> Result<HandleCommands<W>, AllocError>
        ensures none { IfOk result (λ commands. owed_of commands ≡ []) }
        ensures stops { IfOk result (λ commands. ⟦<HandleCommands<W> as Commands>⟧.stops commands ≡ 0) }
        ensures idles { IfOk result (λ commands. ⟦<HandleCommands<W> as Commands>⟧.idles commands ≡ 0) }
    {
        let posts = Arc::try_clone(&self.posts)?;
        let graceful = self.graceful.clone()?;
        let rt = rt.clone()?;
        Ok(HandleCommands::new(self.alloc, rt, posts, graceful))
    }

    /// No server takes commands from here any more. The replies to those that wait become ready, and so does at once the reply to each
    /// that is posted later.
    pub fn close<W: Wait>(&self, rt: &W) {
        self.posts.lock(rt).close();
    }

    /// What becomes ready once a graceful stop was given from here.
    pub fn graceful_shutdown_signal(&self) -> Result<GracefulShutdownSignal, AllocError> {
        self.graceful.clone()
    }

    /// The commands of another source, and one graceful stop once the signal has come. Before that stop is given, the
    /// graceful signals from here are ready.
    pub fn shutdown_signal<Fut: Future<Output = ()>, Co: Commands + Drop>(
        &self,
        signal: Fut,
        commands: Co,
    ) -> Result<WithSignal<Fut, Co>, AllocError>
        requires { Fut.can_poll signal }
        ensures behind { IfOk result (λ made. behind made ≡ commands) }
        ensures signal { IfOk result (λ made. IsSomeAnd (signal_of made) (λ s. (watched_future s ≡ signal) × (wait_count s ≡ 0))) }
        ensures stops { IfOk result (λ made. ⟦<WithSignal<Fut, Co> as Commands>⟧.stops made ≡ 0) }
        ensures idles { IfOk result (λ made. ⟦<WithSignal<Fut, Co> as Commands>⟧.idles made ≡ 0) }
        ensures ended { IfOk result (λ made. ⟦<WithSignal<Fut, Co> as Commands>⟧.ended made ≡ false) }
    {
        let graceful = self.graceful.clone()?;
        Ok(WithSignal::new(signal, commands, graceful))
    }
}
