//! What a line of a script says of its listeners and their connections.
use service_core::{Octets, Peer};

/// One more thing that is given, as a line of a script asks for it.
#[derive(Drop)]
pub enum PlaceLine {
    /// There is one more listener.
    Listener,
    /// A connection of this peer comes to it.
    Conn(Peer),
    /// The listener says once that no connection has come yet.
    Late,
    /// The listener loses a connection.
    Skip,
    /// The listener fails once.
    FailListener,
    /// The connection gives these bytes.
    Give(Octets),
    /// Its next read is pending once.
    Wait,
    /// Its next write takes at most so many bytes, from 1 to 65,536.
    Take(usize),
    /// Its next write is pending once.
    WriteWait,
    /// Its next read fails.
    FailRead,
    /// Its next write fails.
    FailWrite,
}
