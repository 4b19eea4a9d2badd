//! What a test shows, where want of memory is an error.
use std::alloc::AllocError;
use std::process::Abort;
use std::test::Fail;

/// Whether this was shown. Want of memory comes out as an error.
pub(crate) fn holds<R: Abort>(rt: &R, shown: Result<bool, AllocError>) -> Result<(), Fail> {
    assert!(rt; shown?);
    Ok(())
}
