//! What the services of a server stop it by.
use server_commands::ServerHandle;
use std::sync::Wait;

/// The handle of a server, and a host that waits for the lock under which it posts.
#[derive(Drop)]
pub struct StopHandle<W> {
    rt: W,
    handle: ServerHandle,
}

impl<W: Wait> StopHandle<W> {
    /// It stops the server of this handle.
    pub fn new(rt: W, handle: ServerHandle) -> StopHandle<W> {
        StopHandle { rt, handle }
    }

    /// Asks for a graceful stop. False says that there was no memory.
    pub fn stop(&self) -> bool {
        self.handle.stop(&self.rt, true).is_ok()
    }
}
