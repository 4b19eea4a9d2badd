//! What is known of the connections that come to a listener.
use crate::{Reactor, Watch};
use mio::event::Source;
use std::alloc::AllocError;
use std::io;
use std::sync::Arc;

/// Whether an accept would find a connection.
#[derive(Drop)]
pub struct Arrivals {
    reactor: Arc<Reactor>,
    seen: u64,
    // The last accept found none.
    is_dry: bool,
}

impl Arrivals {
    /// Of this listener, of which the reactor reports from now on.
    pub fn new<S: Source>(reactor: Arc<Reactor>, listener: &mut S) -> io::Result<Arrivals> {
        reactor.add_listener(listener)?;
        Ok(Arrivals {
            reactor,
            seen: 0,
            is_dry: false,
        })
    }

    /// False says that an accept would find none.
    pub fn may_accept(&mut self) -> bool {
        let count = self.reactor.news().arrivals();
        if self.is_dry && count == self.seen {
            return false;
        }
        self.seen = count;
        self.is_dry = false;
        true
    }

    /// An accept found none.
    pub fn note_none(&mut self) {
        self.is_dry = true;
    }

    /// A watch for a connection that was accepted.
    pub fn watch(&self) -> Result<Watch, AllocError> {
        Ok(Watch::new(Arc::try_clone(&self.reactor)?))
    }
}
