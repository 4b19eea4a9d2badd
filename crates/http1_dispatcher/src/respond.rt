ghost use Rattle.std.specs.Prelude.{◌≡◌, Some, IfOk, OnOk, if◌then◌else◌};
ghost use Rattle.http1_grammar.specs.Answers.{goes_on, is_answered};
ghost use Rattle.http1_plain.specs.Views.{request_of};
ghost use Rattle.service_core.specs.declared.peer.Peer.{Peer};
ghost use Rattle.http1_dispatcher.specs.Requests.{Functions, responds};
ghost use Rattle.http1_dispatcher.specs.Progress.{IsPlaced};
ghost use Rattle.http1_dispatcher.specs.Steps.{Answers, GoesOn, IsAnswer, IsAsk, IsCall, IsExpected};
ghost use Rattle.http1_dispatcher.specs.declared.exchange.Stage.TheVariants.{Closing, Reading};

use crate::boxed::Boxed;
use crate::exchange::{Exchange, Stage};
use crate::rules::Rules;
use http1_plain::{ErrorResponse, Request, Response};
use std::alloc::{AllocError, Global};
use std::mem;

/// The response of a result, which an error may be turned into.
pub(crate) fn response_of<E: ErrorResponse>(
    alloc: Global,
    given: Result<Response, E>,
) -> Result<Response, AllocError>
    ensures { IfOk result (λ response. responds E.response given ≡ Some response) }
{
    match given {
        Ok(response) => Ok(response),
        Err(e) => e.into_response(alloc),
    }
}

fn stage_behind(closing: bool) -> Stage
    ensures { result ≡ (if closing then Closing else Reading) }
{
    if closing {
        Stage::Closing
    } else {
        Stage::Reading
    }
}

/// Answers the call that is under way, behind what waits to be written.
pub(crate) fn respond(
    exchange: &mut Exchange,
    rules: Rules,
    response: &Response,
) -> Result<(), AllocError>
    requires called { IsCall exchange.old.stage }
    requires placed { IsPlaced rules exchange.old }
    ensures owed { OnOk result ((peer : Peer) (f : Functions) → IsAnswer exchange.old.stage f.handler response.now
        → Answers rules peer f exchange.old exchange.new) }
    ensures goes { OnOk result (GoesOn rules exchange.old exchange.new) }
{
    match &exchange.stage {
        Stage::Calling { request: _, reply } => {
            let closing = reply.closing;
            exchange
                .out
                .push_response(&reply.method, reply.version, response, closing)?;
            exchange.stage = stage_behind(closing);
            Ok(())
        }
        Stage::Reading
        | Stage::Asking { .. }
        | Stage::Awaiting { .. }
        | Stage::Upgrading { .. }
        | Stage::Closing => unreachable!(),
    }
}

/// Lets the body of this request come, behind what waits to be written. The request's own body counts for nothing.
pub(crate) fn let_come(
    exchange: &mut Exchange,
    rules: Rules,
    request: Request,
    alloc: Global,
) -> Result<(), AllocError>
    requires asked { IsAsk exchange.old.stage }
    requires placed { IsPlaced rules exchange.old }
    ensures owed { OnOk result ((peer : Peer) (f : Functions) → IsExpected exchange.old.stage f.expect (goes_on (request_of request))
        → Answers rules peer f exchange.old exchange.new) }
    ensures goes { OnOk result (GoesOn rules exchange.old exchange.new) }
{
    exchange.out.push_continue()?;
    match mem::replace(&mut exchange.stage, Stage::Closing) {
        Stage::Asking { request: _, reply } => {
            let Request {
                head,
                body: _,
                peer,
            } = request;
            exchange.stage = Stage::Awaiting {
                head: Boxed::new(alloc, head)?,
                peer,
                reply,
            };
            Ok(())
        }
        Stage::Reading
        | Stage::Awaiting { .. }
        | Stage::Calling { .. }
        | Stage::Upgrading { .. }
        | Stage::Closing => unreachable!(),
    }
}

/// Answers the expectation by this response, behind what waits to be written, and closes.
pub(crate) fn turn_away(
    exchange: &mut Exchange,
    rules: Rules,
    response: &Response,
) -> Result<(), AllocError>
    requires asked { IsAsk exchange.old.stage }
    requires placed { IsPlaced rules exchange.old }
    ensures owed { OnOk result ((peer : Peer) (f : Functions) → IsExpected exchange.old.stage f.expect (is_answered response.now)
        → Answers rules peer f exchange.old exchange.new) }
    ensures goes { OnOk result (GoesOn rules exchange.old exchange.new) }
{
    match &exchange.stage {
        Stage::Asking { request: _, reply } => {
            exchange
                .out
                .push_response(&reply.method, reply.version, response, true)?;
            exchange.stage = Stage::Closing;
            Ok(())
        }
        Stage::Reading
        | Stage::Awaiting { .. }
        | Stage::Calling { .. }
        | Stage::Upgrading { .. }
        | Stage::Closing => unreachable!(),
    }
}
