//! The future of a request under a policy.
ghost use Rattle.std.specs.Prelude.{◌≡◌, IsSome, Some, Ok, Err, IfOk, OnErr};
ghost use Rattle.std.specs.Arc.{arc_value};
ghost use Rattle.futures.specs.Poll.{OnPending};
ghost use Rattle.service_core.specs.Polls.{Polls};
ghost use Rattle.cors_answer.specs.Meaning.{Augments, OrMemory, Wraps};
ghost use Rattle.cors_answer.specs.Waiting.{Waited};
ghost use Rattle.cors_answer.specs.declared.future.State.TheVariants.{Here, Waiting, Done};
ghost use Rattle.cors_answer.specs.declared.fault.CorsFault.TheVariants.{Answered, Memory};

use crate::fault::CorsFault;
use cors_policy::{Policy, augment_response_headers};
use futures::Future;
use futures::task::{Context, Poll};
use http1_plain::{ErrorResponse, FieldValue, Response};
use service_core::Watched;
use std::alloc::{AllocError, Global};
use std::mem::replace;
use std::sync::Arc;

/// Future for `CorsMiddleware`.
#[derive(Drop)]
pub struct CorsFuture<Fut, G> {
    pub(crate) alloc: Global,
    pub(crate) state: State<Fut, G>,
}

#[derive(Drop)]
pub(crate) enum State<Fut, G> {
    Here {
        answer: Option<Result<Response, CorsFault>>,
    },
    Waiting {
        future: Watched<Fut>,
        policy: Arc<Policy<G>>,
        grant: Option<FieldValue>,
    },
    Done,
}

impl<Fut, G> CorsFuture<Fut, G> {
    // Gives this answer, without a call of the inner service.
    pub(crate) fn at_once(alloc: Global, answer: Result<Response, CorsFault>) -> CorsFuture<Fut, G>
        ensures { result.state ≡ Here (Some answer) }
    {
        CorsFuture {
            alloc,
            state: State::Here {
                answer: Some(answer),
            },
        }
    }
}

// The response, unless memory ran out.
fn or_memory(response: Result<Response, AllocError>) -> Result<Response, CorsFault>
    ensures ok { IfOk response (λ written. result ≡ Ok written) }
    ensures err { OnErr response (result ≡ Err Memory) }
{
    match response {
        Ok(response) => Ok(response),
        Err(_) => Err(CorsFault::Memory),
    }
}

// The error that answers with the response, unless memory ran out.
fn as_error(response: Result<Response, AllocError>) -> Result<Response, CorsFault>
    ensures ok { IfOk response (λ written. result ≡ Err (Answered written)) }
    ensures err { OnErr response (result ≡ Err Memory) }
{
    match response {
        Ok(response) => Err(CorsFault::Answered(response)),
        Err(_) => Err(CorsFault::Memory),
    }
}

// The inner service's result, with what the policy writes.
fn wrapped<G, E: ErrorResponse>(
    alloc: Global,
    policy: &Policy<G>,
    grant: Option<FieldValue>,
    outcome: Result<Response, E>,
) -> Result<Response, CorsFault>
    ensures { OrMemory (Augments E.response policy.now grant outcome result) result }
{
    match outcome {
        Ok(response) => or_memory(augment_response_headers(policy, grant, response)),
        Err(error) => match error.into_response(alloc) {
            Ok(response) => as_error(augment_response_headers(policy, grant, response)),
            Err(_) => {
                drop(grant);
                Err(CorsFault::Memory)
            }
        },
    }
}

impl<Fut, G, E> Future for CorsFuture<Fut, G>
where
    Fut: Future<Output = Result<Response, E>>,
    E: ErrorResponse,
    G: Drop,
{
    type Output = Result<Response, CorsFault>;

    ghost can_poll = { λ m. elim m.state [
      | Here answer ↦ IsSome answer
      | Waiting w policy grant ↦ Fut.can_poll w.future
      | Done ↦ ⊥
    ] };

    ghost gives = { λ m r. elim m.state [
      | Here answer ↦ answer ≡ Some r
      | Waiting w policy grant ↦ Wraps E.response (arc_value policy) grant (Fut.gives w.future) r
      | Done ↦ ⊥
    ] };

    fn poll(&mut self, cx: &mut Context<'_>) -> Poll<Result<Response, CorsFault>>
        requires { ⟦<CorsFuture<Fut, G> as Future>⟧.can_poll self.old }
        ensures polls { Polls ⟦<CorsFuture<Fut, G> as Future>⟧ self.old self.new cx.old cx.new result }
        ensures waited { OnPending result (Waited self.old.state self.new.state) }
    {
        match &mut self.state {
            State::Here { answer } => Poll::Ready(answer.take().unwrap()),
            State::Waiting {
                future,
                policy,
                grant,
            } => match future.poll(cx) {
                Poll::Pending => Poll::Pending,
                Poll::Ready(outcome) => {
                    let answer = wrapped(self.alloc, policy, grant.take(), outcome);
                    drop(replace(&mut self.state, State::Done));
                    Poll::Ready(answer)
                }
            },
            State::Done => unreachable!(),
        }
    }
}
