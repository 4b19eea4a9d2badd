//! What a test shows, where want of memory is an error.
use std::alloc::AllocError;
use std::process::Abort;
use std::test::Fail;

/// The test goes on where this holds.
pub(crate) fn holds<R: Abort>(rt: &R, shown: Result<bool, AllocError>) -> Result<(), Fail> {
    assert!(rt; shown?);
    Ok(())
}
