//! Builders and policies are compared.
use crate::building::{Built, Call, built};
use cors_answer::Cors;
use cors_policy::NoRule;
use std::alloc::{AllocError, Global};

// Whether the builders are equal, and whether their policies are.
fn equalities(one: &Cors<NoRule>, other: &Cors<NoRule>) -> (bool, bool) {
    (*one == *other, *one.policy() == *other.policy())
}

fn equalities_to(one: &Cors<NoRule>, other: &Built) -> Result<(bool, bool), AllocError> {
    match other {
        Ok(other) => Ok(equalities(one, other)),
        Err(error) => Err(*error),
    }
}

fn equalities_of(one: &Built, other: &Built) -> Result<(bool, bool), AllocError> {
    match one {
        Ok(one) => equalities_to(one, other),
        Err(error) => Err(*error),
    }
}

fn equalities_after(
    alloc: Global,
    one: &Built,
    other: &[Call],
) -> Result<(bool, bool), AllocError> {
    let other = built(alloc, other);
    let equal = equalities_of(one, &other);
    drop(other);
    equal
}

// Whether the builders are equal after these calls, and whether their policies are.
fn equalities_by(alloc: Global, one: &[Call], other: &[Call]) -> Result<(bool, bool), AllocError> {
    let one = built(alloc, one);
    let equal = equalities_after(alloc, &one, other);
    drop(one);
    equal
}

/// Whether the builders are equal after these calls.
pub(crate) fn are_equal(alloc: Global, one: &[Call], other: &[Call]) -> Result<bool, AllocError> {
    match equalities_by(alloc, one, other) {
        Ok(equal) => Ok(equal.0),
        Err(error) => Err(error),
    }
}

/// Whether the policies are equal after these calls.
pub(crate) fn have_equal_policies(
    alloc: Global,
    one: &[Call],
    other: &[Call],
) -> Result<bool, AllocError> {
    match equalities_by(alloc, one, other) {
        Ok(equal) => Ok(equal.1),
        Err(error) => Err(error),
    }
}
