//! Services that end each connection after a number of polls, once its peer has sent all.
ghost use Rattle.std.specs.Prelude.{◌≡◌, ⊤, Some, Ok, IsSome};
ghost use Rattle.std.proofs.Common.{rules};
ghost use Rattle.futures.specs.Poll.{OnPending};
ghost use Rattle.futures.specs.Task.{IsArmed, Keeps};
ghost use Rattle.futures.specs.declared.task.Poll.TheVariants.{Ready as PollReady};
ghost use Rattle.service_core.specs.declared.ended.How.TheVariants.{Served};
ghost use Rattle.serve_stage.specs.Ending.{EndsOf, GivesBack};

use futures::Future;
use futures::task::{Context, Poll};
use server_commands::GracefulShutdownSignal;
use server_run::ServerServiceFactory;
use service_core::{Ended, How, Link, LinkHolder, Ready, Service, ServiceFactory, err, ok};
use std::alloc::{AllocError, Global};
use std::sync::Arc;
use std::sync::atomic::AtomicU64;
use std::sync::atomic::Ordering::SeqCst;

/// Ends a connection once it was polled so often, what it waits for has come, and its link is read to its end.
#[derive(Drop)]
pub struct AfterPolls<L> {
    link: Option<L>,
    // So many polls come before the first read.
    before: u32,
    how: How,
    // Nothing is read before this has come.
    until: Option<GracefulShutdownSignal>,
}

impl<L: Link> AfterPolls<L> {
    // Whether what it waits for has come.
    fn has_come(&mut self, cx: &mut Context<'_>) -> bool
        ensures kept { Keeps cx.old cx.new }
        ensures link { self.new.link ≡ self.old.link }
    {
        match &mut self.until {
            Some(signal) => signal.poll(cx).is_ready(),
            None => true,
        }
    }

    // The next poll, or the next read.
    fn go_on(&mut self, link: &mut L, cx: &mut Context<'_>) -> Poll<How>
        ensures same { L.identity link.new ≡ L.identity link.old }
        ensures armed { OnPending result (IsArmed cx.new) }
        ensures kept { Keeps cx.old cx.new }
    {
        if self.before > 0 {
            self.before -= 1;
            return cx.yield_now();
        }
        if !self.has_come(cx) {
            return cx.yield_now();
        }
        read(link, self.how, cx)
    }
}

// Reads a piece. At the end of the link the connection ends so.
fn read<L: Link>(link: &mut L, how: How, cx: &mut Context<'_>) -> Poll<How>
    ensures same { L.identity link.new ≡ L.identity link.old }
    ensures armed { OnPending result (IsArmed cx.new) }
    ensures kept { Keeps cx.old cx.new }
{
    let mut buffer = [0; 16];
    match link.poll_read(cx, &mut buffer) {
        Poll::Pending => Poll::Pending,
        Poll::Ready(Err(_)) => Poll::Ready(How::ReadFault),
        Poll::Ready(Ok(0)) => Poll::Ready(how),
        Poll::Ready(Ok(_)) => cx.yield_now(),
    }
}

impl<L: Link> Future for AfterPolls<L> {
    type Output = Result<Ended<L>, ()>;

    ghost can_poll = { λ f. IsSome f.link };

    ghost gives = { λ f r. GivesBack L.Link f.link r };

    fn poll(&mut self, cx: &mut Context<'_>) -> Poll<Result<Ended<L>, ()>> {
        let mut link = self.link.take().unwrap();
        match self.go_on(&mut link, cx) {
            Poll::Pending => {
                self.link = Some(link);
                Poll::Pending
            }
            Poll::Ready(how) => Poll::Ready(Ok(Ended { link, how })),
        }
    }
}

impl<L: Link> LinkHolder<L> for AfterPolls<L> {
    ghost may_stand = { λ f link. GivesBack {E = Unit {0}} L.Link f.link (Ok (record { link = link; how = Served })) };

    ghost stands_by_gives = { λ wide narrow within link h. within (Ok (record { link = link; how = Served })) h };

    fn into_link(self) -> L {
        self.link.unwrap()
    }
}

/// Ends each connection after so many polls, by its token in another way. The service of one token may be refused.
#[derive(Drop)]
pub struct EndAfter {
    /// So many polls come before the first read.
    pub before: u32,
    /// The token whose service is refused. The error is that token.
    pub refused: Option<usize>,
    /// The token of its connections.
    pub token: usize,
    /// How many connections it began to serve, and its copies did.
    pub begun: Arc<AtomicU64>,
    /// No link is read before this has come.
    pub until: Option<GracefulShutdownSignal>,
}

impl EndAfter {
    // What its connections wait for.
    fn until(&self) -> Result<Option<GracefulShutdownSignal>, AllocError> {
        match &self.until {
            Some(signal) => Ok(Some(signal.clone()?)),
            None => Ok(None),
        }
    }

    // The same for the connections of a token.
    fn with_token(&self, token: usize) -> Result<EndAfter, AllocError> {
        let begun = Arc::try_clone(&self.begun)?;
        let until = self.until()?;
        Ok(EndAfter {
            before: self.before,
            refused: self.refused,
            token,
            begun,
            until,
        })
    }
}

impl Clone for EndAfter {
    /// The same, which counts in the same place.
    fn clone(&self) -> Result<EndAfter, AllocError> {
        self.with_token(self.token)
    }
}

// How connections of a token end.
fn how_of(token: usize) -> How {
    match token {
        0 => How::Served,
        1 => How::Upgraded,
        _ => How::ReadFault,
    }
}

impl<L: Link> Service<L> for EndAfter {
    type Response = Ended<L>;

    type Error = ();

    type Future = AfterPolls<L>;

    ghost may = { λ _ link. EndsOf L.Link link };

    ghost may_ready = { λ _ answer. answer ≡ PollReady (Ok tt) };

    ghost may_begin = { λ _ link f. f.link ≡ Some link };

    ghost begun_gives = { Prim.search rules };

    fn poll_ready(&self, _cx: &mut Context<'_>) -> Poll<Result<(), ()>> {
        Poll::Ready(Ok(()))
    }

    fn call(&self, req: L) -> AfterPolls<L> {
        self.begun.fetch_add(1, SeqCst);
        AfterPolls {
            link: Some(req),
            before: self.before,
            how: how_of(self.token),
            until: self.until().unwrap_or(None),
        }
    }
}

impl<L: Link> ServiceFactory<L> for EndAfter {
    type Response = Ended<L>;

    type Error = ();

    type Config = ();

    type Service = EndAfter;

    type InitError = usize;

    type Future = Ready<Result<EndAfter, usize>>;

    ghost may = { λ _ _ link. EndsOf L.Link link };

    ghost may_ready = { λ _ _ answer. answer ≡ PollReady (Ok tt) };

    ghost may_begin = { λ _ _ link f. f.link ≡ Some link };

    ghost may_init = { λ _ _ _. ⊤ };

    ghost may_make = { λ _ _. ⊤ };

    ghost begun_gives = { Prim.search rules };

    fn new_service(&self, _cfg: ()) -> Ready<Result<EndAfter, usize>> {
        if self.refused == Some(self.token) {
            return err(self.token);
        }
        match self.clone() {
            Ok(service) => ok(service),
            Err(AllocError) => err(usize::MAX),
        }
    }
}

impl<L: Link> ServerServiceFactory<L> for EndAfter {
    type Factory = EndAfter;

    ghost may_serve = { λ _ _ link ended. L.identity ended.link ≡ L.identity link };

    ghost may_leave = { λ _ _ link back. L.identity back ≡ L.identity link };

    ghost may_ready = { λ _ _ answer. answer ≡ PollReady (Ok tt) };

    ghost may_init = { λ _ _ _. ⊤ };

    ghost may_make = { λ _ _. ⊤ };

    fn create(&self, _alloc: Global, token: usize) -> Result<EndAfter, AllocError> {
        self.with_token(token)
    }

    ghost same_served = { λ _ _ _ _ same. same };

    ghost same_left = { λ _ _ _ _ same. same };
}
