//! Calls of a service, through so many maps more.
ghost use Rattle.std.specs.Prelude.{◌≡◌, ℕ, ◌+◌, ◌%◌, ◌^◌, IfOk};
ghost use Rattle.bench_combine.specs.Adding.{Adds, total};

use futures::executor::block_on_queue;
use futures::task::Queue;
use service_combine::ServiceExt;
use service_core::Service;
use std::alloc::{AllocError, Global};
use std::sync::Wait;

/// Calls a service through maps, each of which adds one.
pub trait Through: Drop {
    /// How many maps.
    ghost more: { Self → ℕ };

    /// How many calls.
    ghost calls: { Self → ℕ };

    /// The sum of the answers to 0, 1 and so on, modulo 2^32. An error stands for want of memory.
    fn sum<R: Wait, S>(
        self,
        rt: &R,
        queue: &Queue,
        alloc: Global,
        service: S,
    ) -> Result<u32, AllocError>
    where
        S: Service<u32, Response = u32, Error = AllocError> + Drop,
        requires { S.can_call service }
        ensures { (k : ℕ) → Adds k (S.may service)
            → IfOk result (λ sum. sum ≡ total (k + more self) (calls self)) };
}

/// So many calls, through no map.
#[derive(Drop)]
pub struct Calls(pub u32);

impl Through for Calls {
    ghost more = { λ _. 0 };

    ghost calls = { λ c. c.0 };

    fn sum<R: Wait, S>(
        self,
        rt: &R,
        queue: &Queue,
        _alloc: Global,
        service: S,
    ) -> Result<u32, AllocError>
    where
        S: Service<u32, Response = u32, Error = AllocError> + Drop,
    {
        let mut sum = 0u32;
        for req in 0..self.0 {
            let Ok(answer) = block_on_queue(rt, queue, service.call(req)) else {
                return Err(AllocError);
            };
            sum = sum.wrapping_add(answer?);
        }
        Ok(sum)
    }
}

/// The same calls, through one map more.
#[derive(Drop)]
pub struct More<T>(pub T);

impl<T: Through> Through for More<T> {
    ghost more = { λ m. T.more m.0 + 1 };

    ghost calls = { λ m. T.calls m.0 };

    fn sum<R: Wait, S>(
        self,
        rt: &R,
        queue: &Queue,
        alloc: Global,
        service: S,
    ) -> Result<u32, AllocError>
    where
        S: Service<u32, Response = u32, Error = AllocError> + Drop,
    {
        let mapped = service.map(alloc, |n: u32| n.wrapping_add(1))?;
        self.0.sum(rt, queue, alloc, mapped)
    }
}
