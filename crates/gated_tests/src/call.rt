//! The future of a call.
use crate::flags::Flags;
use futures::Future;
use futures::task::{Context, Poll};
use http1_plain::Response;
use std::alloc::{AllocError, Global};

// How often a call reads the other's flag.
const READS: u32 = 1_000_000_000;

/// Raises its own flag and waits for the other, in one poll. It answers 200 where it reads the other raised, and else 500.
#[derive(Drop)]
pub(crate) struct Call<F> {
    pub(crate) alloc: Global,
    /// The flags, or none where there was no memory for them.
    pub(crate) flags: Option<F>,
    /// The number of its own flag, 0 or 1.
    pub(crate) number: usize,
}

// Raises a flag, and reads the other until it is raised. False says that it never was.
fn meet<F: Flags>(flags: &F, number: usize) -> bool {
    let other = if number == 0 { 1 } else { 0 };
    flags.raise(number);
    for _ in 0..READS {
        if flags.is_raised(other) {
            return true;
        }
    }
    false
}

impl<F: Flags> Future for Call<F> {
    type Output = Result<Response, AllocError>;

    fn poll(&mut self, _cx: &mut Context<'_>) -> Poll<Result<Response, AllocError>> {
        let Some(flags) = &self.flags else {
            return Poll::Ready(Err(AllocError));
        };
        let status = if meet(flags, self.number) { 200 } else { 500 };
        Poll::Ready(Ok(Response::new(self.alloc, status)))
    }
}
