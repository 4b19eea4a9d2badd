//! A service, asked through so many maps.
use crate::questions::{Question, all_hold};
use service_combine::ServiceExt;
use service_core::{NoMemory, Service};
use std::alloc::AllocError;
use std::marker::PhantomData;

/// Three times a number and one more.
pub(crate) fn tripled(number: u32) -> u32 {
    number.wrapping_mul(3).wrapping_add(1)
}

/// Asks a service through maps that each triple.
pub(crate) trait Through {
    /// Whether the service answers so.
    fn holds<S>(
        rt: &HostRuntime,
        service: S,
        questions: &[Question<u32, u32, S::Error>],
    ) -> Result<bool, AllocError>
    where
        S: Service<u32, Response = u32, Error: PartialEq + NoMemory> + Drop,
        requires { S.can_call service };
}

/// Through no map.
pub(crate) struct Straight;

impl Through for Straight {
    fn holds<S>(
        rt: &HostRuntime,
        service: S,
        questions: &[Question<u32, u32, S::Error>],
    ) -> Result<bool, AllocError>
    where
        S: Service<u32, Response = u32, Error: PartialEq + NoMemory> + Drop,
    {
        all_hold(rt, &service, questions)
    }
}

/// Through one map more.
pub(crate) struct More<T> {
    rest: PhantomData<T>,
}

impl<T: Through> Through for More<T> {
    fn holds<S>(
        rt: &HostRuntime,
        service: S,
        questions: &[Question<u32, u32, S::Error>],
    ) -> Result<bool, AllocError>
    where
        S: Service<u32, Response = u32, Error: PartialEq + NoMemory> + Drop,
    {
        let mapped = service.map(rt.alloc(), tripled)?;
        T::holds(rt, mapped, questions)
    }
}

type Four<T> = More<More<More<More<T>>>>;

/// Through twelve maps.
pub(crate) type Twelve = Four<Four<Four<Straight>>>;
