//! What a server is told.

/// What an accept loop is told, as the commands that `actix-server`'s `ServerHandle` sends.
#[derive(Clone, Copy, Debug, PartialEq, Eq)]
pub enum Command {
    /// Take no connection until `Resume`.
    Pause,
    /// Take connections again.
    Resume,
    /// Take no connection any more. A graceful stop lets those that are served end.
    Stop { graceful: bool },
}
