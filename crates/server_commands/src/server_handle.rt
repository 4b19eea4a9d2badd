ghost use Rattle.std.specs.Prelude.{◌≡◌, IfOk};
ghost use Rattle.server_core.specs.declared.command.Command.TheVariants.{Pause, Resume, Stop};

use crate::flag::flag;
use crate::posts::Posts;
use crate::reply::Reply;
use server_core::Command;
use std::alloc::{AllocError, Global};
use std::sync::{Arc, Mutex, Wait};

/// What tells a running server to pause, to go on and to stop, from any thread (`actix-server`'s `ServerHandle`).
///
/// Each call waits for the lock of the queue, and not for the server: its reply becomes ready once the server has done it, or at
/// once where the queue was closed, since no server takes its commands any more.
#[derive(Drop)]
pub struct ServerHandle {
    alloc: Global,
    posts: Arc<Mutex<Posts>>,
}

impl ServerHandle {
    ghost use Rattle.server_commands.specs.Replies.{command_of, reads_of};

    pub(crate) fn new(alloc: Global, posts: Arc<Mutex<Posts>>) -> ServerHandle {
        ServerHandle { alloc, posts }
    }

    /// Take no connection until `resume`.
    pub fn pause<W: Wait>(&self, rt: &W) -> Result<Reply, AllocError>
        ensures command { IfOk result (λ reply. command_of reply ≡ Pause) }
        ensures unread { IfOk result (λ reply. reads_of reply ≡ 0) }
    {
        self.post(rt, Command::Pause)
    }

    /// Take connections again.
    pub fn resume<W: Wait>(&self, rt: &W) -> Result<Reply, AllocError>
        ensures command { IfOk result (λ reply. command_of reply ≡ Resume) }
        ensures unread { IfOk result (λ reply. reads_of reply ≡ 0) }
    {
        self.post(rt, Command::Resume)
    }

    /// Take no connection any more. A graceful stop lets those that are served end.
    pub fn stop<W: Wait>(&self, rt: &W, graceful: bool) -> Result<Reply, AllocError>
        ensures command { IfOk result (λ reply. command_of reply ≡ Stop graceful) }
        ensures unread { IfOk result (λ reply. reads_of reply ≡ 0) }
    {
        self.post(rt, Command::Stop { graceful })
    }

    // Puts a command last. Without memory none is posted.
    fn post<W: Wait>(&self, rt: &W, command: Command) -> Result<Reply, AllocError>
        ensures command { IfOk result (λ reply. command_of reply ≡ command) }
        ensures unread { IfOk result (λ reply. reads_of reply ≡ 0) }
    {
        let (posted, reply) = flag(self.alloc, command)?;
        self.posts.lock(rt).post(posted)?;
        Ok(reply)
    }
}

impl Clone for ServerHandle {
    /// A handle of the same server.
    fn clone(&self) -> Result<ServerHandle, AllocError> {
        let posts = Arc::try_clone(&self.posts)?;
        Ok(ServerHandle::new(self.alloc, posts))
    }
}
