ghost use Rattle.std.specs.Prelude.{◌≡◌, ◌&&◌, ◌++◌, ◌<◌, IfOk, OnOk};
ghost use Rattle.http1_grammar.specs.Reading.{IsAtBody, IsRefusal};
ghost use Rattle.http1_grammar.specs.Tokens.{upgrades};
ghost use Rattle.http1_grammar.specs.Wire.{refusal};
ghost use Rattle.http1_plain.specs.Views.{view};
ghost use Rattle.http1_dispatcher.specs.Progress.{IsPlaced};
ghost use Rattle.http1_dispatcher.specs.Steps.{Begins, BeginsBody, BeginsHead, IsAwaiting, IsCallOf, IsCallWith, IsOpen, PutsBy, awaiting, reply_to};
ghost use Rattle.http1_dispatcher.specs.declared.exchange.Stage.TheVariants.{Closing, Reading};

use crate::boxed::Boxed;
use crate::exchange::{Exchange, Reply, Stage};
use crate::rules::Rules;
use http1_head::ReadHead;
use http1_plain::{Request, RequestHead};
use http1_reader::Step;
use service_core::{Octets, Peer};
use std::alloc::{AllocError, Global};
use std::mem;
use std::snapshot::Snapshot;

/// What the unread bytes began.
#[derive(Clone, Copy)]
pub(crate) enum Begun {
    /// More bytes decide it.
    NeedMore,
    /// A head was read, or no more requests are.
    On,
    /// A service is to be called with the request that is put by.
    Called,
}

// Refuses the request, and closes.
fn refuse(exchange: &mut Exchange, status: u16) -> Result<(), AllocError>
    requires { IsRefusal status }
    ensures { OnOk result (exchange.new
        ≡ record exchange.old { out = exchange.old.out ++ refusal status; stage = Closing }) }
{
    exchange.out.push_refusal(status)?;
    exchange.stage = Stage::Closing;
    Ok(())
}

// Whether another protocol takes the link over behind this head.
fn is_upgrade(head: &ReadHead, rules: Rules) -> bool
    ensures { result ≡ (upgrades (view head.now) && rules.has_upgrade) }
{
    head.upgrades() && rules.has_upgrade
}

// How the response to a request of this head is written.
fn reply_to(head: &ReadHead, rules: Rules) -> Result<Reply, AllocError>
    ensures { IfOk result (λ reply. reply ≡ reply_to rules head.now) }
{
    let closing = head.closes(rules.keeps_alive);
    let head = head.head();
    Ok(Reply {
        method: head.method.clone()?,
        version: head.version,
        closing,
    })
}

// Calls the service with the request.
fn call(exchange: &mut Exchange, request: Request, reply: Reply) -> Begun
    ensures stage { IsCallWith request reply exchange.new.stage result }
    ensures put { PutsBy result exchange.new }
    ensures reader { exchange.new.reader ≡ exchange.old.reader }
    ensures out { exchange.new.out ≡ exchange.old.out }
{
    exchange.stage = Stage::Calling {
        request: Snapshot::of(&request),
        reply,
    };
    exchange.request = Some(request);
    Begun::Called
}

// Calls the service with the request of this head and peer, whose body comes next. Where it isn't there yet, it is waited for.
fn take_body(
    exchange: &mut Exchange,
    head: RequestHead,
    peer: Peer,
    reply: Reply,
    rules: Rules,
    alloc: Global,
) -> Result<Begun, AllocError>
    requires placed { IsPlaced rules (awaiting head peer reply exchange.old) }
    requires limited { 0 < rules.limits.head }
    ensures { IfOk result (BeginsBody rules (awaiting head peer reply exchange.old) exchange.new) }
{
    match exchange.reader.next()? {
        Step::NeedMore => {
            exchange.stage = Stage::Awaiting {
                head: Boxed::new(alloc, head)?,
                peer,
                reply,
            };
            Ok(Begun::NeedMore)
        }
        Step::Head(_) => unreachable!(),
        Step::Body(body) => Ok(call(exchange, Request { head, body, peer }, reply)),
        Step::Refused(status) => {
            refuse(exchange, status)?;
            Ok(Begun::On)
        }
    }
}

// Goes on as the head asks: to another protocol, to the expect service, or to its body.
fn take_head(
    exchange: &mut Exchange,
    head: ReadHead,
    rules: Rules,
    peer: Peer,
    alloc: Global,
) -> Result<Begun, AllocError>
    requires limits { exchange.old.reader.limits ≡ rules.limits }
    requires at_body { IsAtBody exchange.old.reader.stage }
    requires limited { 0 < rules.limits.head }
    ensures { IfOk result (BeginsHead rules peer head exchange.old exchange.new) }
{
    if is_upgrade(&head, rules) {
        exchange.stage = Stage::Upgrading {
            head: Boxed::new(alloc, head.into_head())?,
        };
        return Ok(Begun::On);
    }
    let reply = reply_to(&head, rules)?;
    let expects = head.expects();
    let head = head.into_head();
    if !expects {
        return take_body(exchange, head, peer, reply, rules, alloc);
    }
    let request = Request {
        head,
        body: Octets::new(alloc),
        peer,
    };
    exchange.stage = Stage::Asking {
        request: Snapshot::of(&request),
        reply,
    };
    exchange.request = Some(request);
    Ok(Begun::Called)
}

// Reads the next head.
fn begin_head(
    exchange: &mut Exchange,
    rules: Rules,
    peer: Peer,
    alloc: Global,
) -> Result<Begun, AllocError>
    requires stage { exchange.old.stage ≡ Reading }
    requires placed { IsPlaced rules exchange.old }
    requires limited { 0 < rules.limits.head }
    ensures { IfOk result (Begins rules peer exchange.old exchange.new) }
{
    match exchange.reader.next()? {
        Step::NeedMore => Ok(Begun::NeedMore),
        Step::Head(head) => take_head(exchange, head, rules, peer, alloc),
        Step::Body(_) => unreachable!(),
        Step::Refused(status) => {
            refuse(exchange, status)?;
            Ok(Begun::On)
        }
    }
}

// Calls the service with the request that waited for this body.
fn call_awaited(exchange: &mut Exchange, body: Octets) -> Begun
    requires { IsAwaiting exchange.old.stage }
    ensures stage { IsCallOf exchange.old.stage body exchange.new.stage result }
    ensures put { PutsBy result exchange.new }
    ensures reader { exchange.new.reader ≡ exchange.old.reader }
    ensures out { exchange.new.out ≡ exchange.old.out }
{
    match mem::replace(&mut exchange.stage, Stage::Closing) {
        Stage::Awaiting { head, peer, reply } => {
            let head = head.into_inner();
            call(exchange, Request { head, body, peer }, reply)
        }
        Stage::Reading
        | Stage::Asking { .. }
        | Stage::Calling { .. }
        | Stage::Upgrading { .. }
        | Stage::Closing => unreachable!(),
    }
}

// Reads the body of the head that was read.
fn begin_body(exchange: &mut Exchange, rules: Rules) -> Result<Begun, AllocError>
    requires stage { IsAwaiting exchange.old.stage }
    requires placed { IsPlaced rules exchange.old }
    requires limited { 0 < rules.limits.head }
    ensures { IfOk result (BeginsBody rules exchange.old exchange.new) }
{
    match exchange.reader.next()? {
        Step::NeedMore => Ok(Begun::NeedMore),
        Step::Head(_) => unreachable!(),
        Step::Body(body) => Ok(call_awaited(exchange, body)),
        Step::Refused(status) => {
            refuse(exchange, status)?;
            Ok(Begun::On)
        }
    }
}

/// Takes the next step, if the unread bytes decide it.
pub(crate) fn begin(
    exchange: &mut Exchange,
    rules: Rules,
    peer: Peer,
    alloc: Global,
) -> Result<Begun, AllocError>
    requires open { IsOpen exchange.old.stage }
    requires placed { IsPlaced rules exchange.old }
    requires limited { 0 < rules.limits.head }
    ensures { IfOk result (Begins rules peer exchange.old exchange.new) }
{
    match &exchange.stage {
        Stage::Reading => begin_head(exchange, rules, peer, alloc),
        Stage::Awaiting { .. } => begin_body(exchange, rules),
        Stage::Asking { .. } | Stage::Calling { .. } | Stage::Upgrading { .. } | Stage::Closing =>
            unreachable!(),
    }
}
