//! Texts, without a clause.
use service_core::Octets;
use std::alloc::{AllocError, Global};

/// An empty text.
pub(crate) fn empty(alloc: Global) -> Octets {
    Octets::new(alloc)
}

/// The text goes on with these bytes.
pub(crate) fn add(out: &mut Octets, bytes: &[u8]) -> Result<(), AllocError> {
    out.push_all(bytes)
}

/// Whether the text was made, and is this one.
pub(crate) fn is_made(made: &Result<Octets, AllocError>, text: &[u8]) -> Result<bool, AllocError> {
    match made {
        Ok(made) => Ok(is(made, text)),
        Err(error) => Err(*error),
    }
}

/// Whether the text is this one.
pub(crate) fn is(out: &Octets, text: &[u8]) -> bool {
    out.as_bytes() == text
}
