//! A service under maps, and calls of it.
ghost use Rattle.std.specs.Prelude.{◌≡◌, ◌+◌, IfOk};
ghost use Rattle.bench_combine.specs.Adding.{maps_of, total};

use crate::depth::Depth;
use crate::through::{Calls, More, Through};
use futures::task::{Doorbell, Queue};
use service_core::{fn_service, ok};
use std::alloc::{AllocError, AllocGlobal};
use std::random::RandomSource;
use std::sync::Wait;

// The same through five maps more.
fn five<T: Through>(inner: T) -> More<More<More<More<More<T>>>>>
    ensures maps { ⟦<More<More<More<More<More<T>>>>> as Through>⟧.more result ≡ T.more inner + 5 }
    ensures calls { ⟦<More<More<More<More<More<T>>>>> as Through>⟧.calls result ≡ T.calls inner }
{
    More(More(More(More(More(inner)))))
}

// The sum of the answers of a service that answers each number with itself, so called.
fn sum_of<R, T: Through>(rt: &R, through: T) -> Result<u32, AllocError>
where
    R: Wait + RandomSource + AllocGlobal,
    ensures { IfOk result (λ sum. sum ≡ total (T.more through) (T.calls through)) }
{
    let alloc = rt.alloc();
    let Ok(queue) = Queue::new(rt, Doorbell::parking()) else {
        return Err(AllocError);
    };
    let service = fn_service(alloc, |n: u32| ok::<u32, AllocError>(n))?;
    through.sum(rt, &queue, alloc, service)
}

/// The sum of the answers to so many calls of a service that answers each number with itself, under so many maps that
/// each add one. An error stands for want of memory.
pub fn answered<R>(rt: &R, depth: Depth, calls: u32) -> Result<u32, AllocError>
where
    R: Wait + RandomSource + AllocGlobal,
    ensures { IfOk result (λ sum. sum ≡ total (maps_of depth) calls) }
{
    let calls = Calls(calls);
    match depth {
        Depth::One => sum_of(rt, More(calls)),
        Depth::Five => sum_of(rt, five(calls)),
        Depth::Twenty => sum_of(rt, five(five(five(five(calls))))),
    }
}
