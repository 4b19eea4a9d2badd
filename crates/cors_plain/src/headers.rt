//! Lists of header fields.
ghost use Rattle.std.specs.Prelude.{◌≡◌, IfOk, option_map};
ghost use Rattle.http1_grammar.specs.Headers.{get, insert, remove};

use service_core::Octets;
use std::alloc::{AllocError, Global};

/// A name in lower case, and a value.
pub type Header = (Octets, Octets);

/// The header of the name and the value.
pub(crate) fn header(alloc: Global, name: &[u8], value: &[u8]) -> Result<Header, AllocError>
    ensures { IfOk result (λ found. found ≡ (name.now, value.now)) }
{
    Ok((Octets::of(alloc, name)?, Octets::of(alloc, value)?))
}

fn copy_of(header: &Header) -> Result<Header, AllocError>
    ensures { IfOk result (λ copy. copy ≡ header.now) }
{
    Ok((header.0.copy()?, header.1.copy()?))
}

/// The first value of the name.
pub(crate) fn get<'a>(headers: &'a [Header], name: &[u8]) -> Option<&'a [u8]>
    ensures { option_map (λ value. value.now) result ≡ get headers.now name.now }
{
    match headers {
        [] => None,
        [header, rest @ ..] => {
            if header.0.as_bytes() == name {
                Some(header.1.as_bytes())
            } else {
                get(rest, name)
            }
        }
    }
}

// The headers of other names.
fn without(alloc: Global, headers: &[Header], name: &[u8]) -> Result<Vec<Header>, AllocError>
    ensures { IfOk result (λ list. list.items ≡ remove headers.now name.now) }
{
    match headers {
        [] => Ok(Vec::new(alloc)),
        [header, rest @ ..] => {
            let mut list = without(alloc, rest, name)?;
            if header.0.as_bytes() == name {
                return Ok(list);
            }
            list.insert(0, copy_of(header)?)?;
            Ok(list)
        }
    }
}

/// The pair takes the place of the first of its name, and the others go. A new name goes last.
pub(crate) fn insert(
    alloc: Global,
    headers: &[Header],
    name: &[u8],
    value: &[u8],
) -> Result<Vec<Header>, AllocError>
    ensures { IfOk result (λ list. list.items ≡ insert headers.now name.now value.now) }
{
    match headers {
        [] => {
            let mut list = Vec::new(alloc);
            list.push(header(alloc, name, value)?)?;
            Ok(list)
        }
        [first, rest @ ..] => {
            if first.0.as_bytes() == name {
                let mut list = without(alloc, rest, name)?;
                list.insert(0, header(alloc, name, value)?)?;
                return Ok(list);
            }
            let mut list = insert(alloc, rest, name, value)?;
            list.insert(0, copy_of(first)?)?;
            Ok(list)
        }
    }
}
