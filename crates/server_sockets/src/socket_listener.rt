ghost use Rattle.std.specs.Prelude.{◌≡◌, ◌+◌, ◌<◌, ◌^◌, ◌↔◌, IsTrue, None, false, IfOk};
ghost use Rattle.server_run.specs.Listener.{IsMarked, IsTakenFrom, OnGot, Rises};
ghost use Rattle.server_run.specs.declared.listener.Accepted.TheVariants.{Ended, Failed, NotYet, Skipped};
ghost use Rattle.server_sockets.specs.Answers.{TellsRefusal};

use crate::refusal::{Refusal, refusal_of};
use crate::socket_peer::peer_of;
use crate::{MioStream, SocketLink};
use mio::event::Source;
use mio::net::{TcpListener, UnixListener};
use mio::{Interest, Registry, Token};
use server_reactor::{Arrivals, Reactor, Watch};
use server_run::{Accepted, Listener};
use service_core::Peer;
use std::io;
use std::net::SocketAddr;
use std::sync::Arc;

// What listens.
#[derive(Drop)]
enum MioListener {
    Tcp(TcpListener),
    Uds(UnixListener),
}

impl MioListener {
    // The next connection, and who is at its other end.
    fn accept(&self) -> io::Result<(MioStream, Peer)> {
        match self {
            MioListener::Tcp(listener) => {
                let (stream, addr) = listener.accept()?;
                // A connection that can't be set so is only slower.
                let _ = stream.set_nodelay(true);
                Ok((MioStream::Tcp(stream), peer_of(addr)))
            }
            MioListener::Uds(listener) => {
                let (stream, _) = listener.accept()?;
                Ok((MioStream::Uds(stream), Peer::Local))
            }
        }
    }
}

impl Source for MioListener {
    fn register(
        &mut self,
        registry: &Registry,
        token: Token,
        interests: Interest,
    ) -> io::Result<()> {
        match self {
            MioListener::Tcp(listener) => listener.register(registry, token, interests),
            MioListener::Uds(listener) => listener.register(registry, token, interests),
        }
    }

    fn reregister(
        &mut self,
        registry: &Registry,
        token: Token,
        interests: Interest,
    ) -> io::Result<()> {
        match self {
            MioListener::Tcp(listener) => listener.reregister(registry, token, interests),
            MioListener::Uds(listener) => listener.reregister(registry, token, interests),
        }
    }

    fn deregister(&mut self, registry: &Registry) -> io::Result<()> {
        match self {
            MioListener::Tcp(listener) => listener.deregister(registry),
            MioListener::Uds(listener) => listener.deregister(registry),
        }
    }
}

// The listener fails once it has given so many.
const MOST: u64 = (1 << 48) - 1;

// Whether an accept may find a connection.
fn may_accept(arrivals: &mut Option<Arrivals>) -> bool {
    match arrivals {
        Some(arrivals) => arrivals.may_accept(),
        None => true,
    }
}

// Puts down that an accept found none.
fn note_refusal(arrivals: &mut Option<Arrivals>, refusal: Refusal) {
    if let Some(arrivals) = arrivals
        && let Refusal::NotYet = refusal
    {
        arrivals.note_none();
    }
}

// A watch for a connection that was accepted. One without reads and writes at each poll.
fn watch_of(arrivals: &Option<Arrivals>) -> Option<Watch> {
    match arrivals {
        Some(arrivals) => arrivals.watch().ok(),
        None => None,
    }
}

/// Connections that come to a socket which doesn't block (`mio::net::TcpListener`, `mio::net::UnixListener`). It never
/// ends.
///
/// Where nothing waits it answers `NotYet`. A connection that was refused, aborted or reset before it was accepted is
/// `Skipped`. Any other error is `Failed`, and so is every call after 2^48 - 1 connections.
#[derive(Drop)]
pub struct SocketListener {
    listener: MioListener,
    arrivals: Option<Arrivals>,
    given: u64,
    waits: u64,
    skips: u64,
    faults: u64,
    ghost few: { given < 2 ^ 48 },
}

impl SocketListener {
    /// The connections that come to this listener from now on.
    pub fn tcp(listener: TcpListener) -> SocketListener
        ensures given { ⟦<SocketListener as Listener>⟧.given result ≡ 0 }
    {
        SocketListener::new(MioListener::Tcp(listener))
    }

    /// The connections that come to this listener from now on.
    pub fn uds(listener: UnixListener) -> SocketListener
        ensures given { ⟦<SocketListener as Listener>⟧.given result ≡ 0 }
    {
        SocketListener::new(MioListener::Uds(listener))
    }

    fn new(listener: MioListener) -> SocketListener
        ensures given { ⟦<SocketListener as Listener>⟧.given result ≡ 0 }
    {
        SocketListener {
            listener,
            arrivals: None,
            given: 0,
            waits: 0,
            skips: 0,
            faults: 0,
        }
    }

    /// The same listener. The reactor tells it when connections have come, and tells its links when bytes have.
    pub fn over(self, reactor: Arc<Reactor>) -> io::Result<SocketListener>
        ensures given { IfOk result (λ listener. ⟦<SocketListener as Listener>⟧.given listener ≡ ⟦<SocketListener as Listener>⟧.given self) }
    {
        let mut listener = self;
        listener.arrivals = Some(Arrivals::new(reactor, &mut listener.listener)?);
        Ok(listener)
    }

    /// Where it listens, of a TCP listener (`std::net::TcpListener::local_addr`).
    pub fn local_addr(&self) -> Option<SocketAddr> {
        match &self.listener {
            MioListener::Tcp(listener) => listener.local_addr().ok(),
            MioListener::Uds(_) => None,
        }
    }
}

impl SocketListener {
    // Counts why no connection was given, and tells it.
    fn tell_refusal(&mut self, refusal: Refusal) -> Accepted<SocketLink>
        ensures told { TellsRefusal refusal result }
        ensures given { self.new.given ≡ self.old.given }
        ensures waited { Rises self.old.waits self.new.waits (result ≡ NotYet) }
        ensures skipped { Rises self.old.skips self.new.skips (result ≡ Skipped) }
        ensures failed { Rises self.old.faults self.new.faults (result ≡ Failed) }
    {
        match refusal {
            Refusal::NotYet => {
                self.waits = self.waits.saturating_add(1);
                Accepted::NotYet
            }
            Refusal::Skipped => {
                self.skips = self.skips.saturating_add(1);
                Accepted::Skipped
            }
            Refusal::Failed => {
                self.faults = self.faults.saturating_add(1);
                Accepted::Failed
            }
        }
    }
}

impl Listener for SocketListener {
    type Link = SocketLink;

    ghost left = { λ _. None };

    ghost given = { λ listener. listener.given };

    ghost ended = { λ _. false };

    ghost waits = { λ listener. listener.waits };

    ghost skips = { λ listener. listener.skips };

    ghost faults = { λ listener. listener.faults };

    fn accept(&mut self) -> Accepted<SocketLink>
        ensures link { OnGot result
            (λ link. IsTakenFrom (⟦<SocketListener as Listener>⟧.left self.old) link (⟦<SocketListener as Listener>⟧.left self.new) × (⟦<SocketListener as Listener>⟧.given self.new ≡ ⟦<SocketListener as Listener>⟧.given self.old + 1))
            ((⟦<SocketListener as Listener>⟧.left self.new ≡ ⟦<SocketListener as Listener>⟧.left self.old) × (⟦<SocketListener as Listener>⟧.given self.new ≡ ⟦<SocketListener as Listener>⟧.given self.old)) }
        ensures marked { IsMarked result (⟦<SocketListener as Listener>⟧.rest self.old) (⟦<SocketListener as Listener>⟧.rest self.new) }
        ensures small { ⟦<SocketListener as Listener>⟧.given self.new < 2 ^ 48 }
        ensures ended { IsTrue (⟦<SocketListener as Listener>⟧.ended self.new) ↔ (result ≡ Ended) }
        ensures for_ever { IsTrue (⟦<SocketListener as Listener>⟧.ended self.old) → result ≡ Ended }
        ensures waited { Rises (⟦<SocketListener as Listener>⟧.waits self.old) (⟦<SocketListener as Listener>⟧.waits self.new) (result ≡ NotYet) }
        ensures skipped { Rises (⟦<SocketListener as Listener>⟧.skips self.old) (⟦<SocketListener as Listener>⟧.skips self.new) (result ≡ Skipped) }
        ensures failed { Rises (⟦<SocketListener as Listener>⟧.faults self.old) (⟦<SocketListener as Listener>⟧.faults self.new) (result ≡ Failed) }
        ensures at_most { ⟦<SocketListener as Listener>⟧.given self.old + 1 ≡ 2 ^ 48 → result ≡ Failed }
    {
        if self.given >= MOST {
            self.faults = self.faults.saturating_add(1);
            return Accepted::Failed;
        }
        if !may_accept(&mut self.arrivals) {
            return self.tell_refusal(Refusal::NotYet);
        }
        match self.listener.accept() {
            Ok((stream, peer)) => {
                self.given += 1;
                Accepted::Got(SocketLink::new(stream, peer, watch_of(&self.arrivals)))
            }
            Err(error) => {
                let refusal = refusal_of(error.kind());
                note_refusal(&mut self.arrivals, refusal);
                self.tell_refusal(refusal)
            }
        }
    }

    ghost at_end = { λ _ _. tt };
}
