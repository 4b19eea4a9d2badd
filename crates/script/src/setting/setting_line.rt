//! What a line of a script sets.
use crate::handler::Handler;

/// How connections are served, or by what, as a line of a script asks for it.
#[derive(Clone, Copy)]
pub enum SettingLine {
    /// So many workers serve, from 1 to 512.
    Workers(usize),
    /// The ring to each worker has so many places, from 1 to 4,096.
    Ring(usize),
    /// A listener may fail so often in a row, from 1 to 1,000.
    Retry(usize),
    /// A worker has so many connections at once at the most, from 1 to 1,000,000.
    Limit(usize),
    /// So many bytes of a head are read, from 1 to 65,535.
    Head(usize),
    /// So many bytes of a body are read, from 1 to 16,777,216.
    Body(usize),
    /// What a connection gives comes in pieces of at most so many bytes, from 1 to 65,536.
    Cut(usize),
    /// This handler answers.
    Handle(Handler),
    /// Connections close behind their first response.
    KeepAliveOff,
    /// An expectation is refused by 417.
    ExpectRefuse,
    /// A connection whose head names `upgrade` is echoed.
    UpgradeEcho,
}
