//! Lists of headers, without a clause.
use crate::bytes::{add, empty};
use http_header::HeaderName;
use http1_plain::{FieldValue, HeaderList};
use service_core::Octets;
use std::alloc::{AllocError, Global};

/// A header's name, or want of memory.
pub(crate) fn name_of(alloc: Global, name: &[u8]) -> Result<HeaderName, AllocError> {
    match HeaderName::from_bytes(alloc, name) {
        Ok(name) => Ok(name),
        Err(_) => Err(AllocError),
    }
}

/// A header's value, or want of memory.
pub(crate) fn value_of(alloc: Global, value: &[u8]) -> Result<FieldValue, AllocError> {
    match FieldValue::new(alloc, value) {
        Ok(value) => Ok(value),
        Err(_) => Err(AllocError),
    }
}

// The list goes on with this header.
fn put(list: &mut HeaderList, alloc: Global, name: &str, value: &str) -> Result<(), AllocError> {
    let name = name_of(alloc, name.as_bytes())?;
    let value = value_of(alloc, value.as_bytes())?;
    list.append(name, value)
}

/// A list of these headers.
pub(crate) fn list_of(alloc: Global, fields: &[(&str, &str)]) -> Result<HeaderList, AllocError> {
    let mut list = HeaderList::new(alloc);
    for (name, value) in fields {
        put(&mut list, alloc, name, value)?;
    }
    Ok(list)
}

/// The text goes on with a header's line.
pub(crate) fn add_line(out: &mut Octets, name: &[u8], value: &[u8]) -> Result<(), AllocError> {
    add(out, name)?;
    add(out, b"=")?;
    add(out, value)?;
    add(out, b";")
}

/// The headers, told as lines.
pub(crate) fn lines(alloc: Global, headers: &HeaderList) -> Result<Octets, AllocError> {
    let mut lines = empty(alloc);
    for (name, value) in headers.entries() {
        add_line(&mut lines, name.as_bytes(), value.as_bytes())?;
    }
    Ok(lines)
}
