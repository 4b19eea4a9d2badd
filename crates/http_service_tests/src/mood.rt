//! How a part of a service of connections is made, and how ready it is.
ghost use Rattle.std.specs.Prelude.{◌≡◌, None, IsSome};
ghost use Rattle.futures.specs.Poll.{OnPending};
ghost use Rattle.futures.specs.Task.{IsArmed, Keeps};

use crate::late::Late;
use futures::task::{Context, Poll};
use http1_plain::{ErrorResponse, Response};
use std::alloc::{AllocError, Global};

/// How a part is made, or how ready it is.
#[derive(Clone, Copy, PartialEq, Eq)]
pub(crate) enum Mood {
    /// It is made at once, and is ready.
    Fine,
    /// It is made behind one wait, and is never ready.
    Late,
    /// It errs.
    Errs,
}

/// What a part errs by.
#[derive(Clone, Copy, Debug, PartialEq, Eq, Drop)]
pub(crate) struct Fault;

impl ErrorResponse for Fault {
    ghost response = { λ _. None };

    fn into_response(self, _alloc: Global) -> Result<Response, AllocError> {
        Err(AllocError)
    }
}

impl Mood {
    /// The part is made so.
    pub(crate) fn make<P: Drop>(self, part: P) -> Late<P>
        ensures { IsSome result.value }
    {
        Late {
            value: match self {
                Mood::Errs => Some(Err(Fault)),
                Mood::Fine | Mood::Late => Some(Ok(part)),
            },
            waits: self == Mood::Late,
        }
    }

    /// The part is ready so.
    pub(crate) fn ready(self, cx: &mut Context<'_>) -> Poll<Result<(), Fault>>
        ensures armed { OnPending result (IsArmed cx.new) }
        ensures kept { Keeps cx.old cx.new }
    {
        match self {
            Mood::Fine => Poll::Ready(Ok(())),
            Mood::Late => cx.yield_now(),
            Mood::Errs => Poll::Ready(Err(Fault)),
        }
    }
}
