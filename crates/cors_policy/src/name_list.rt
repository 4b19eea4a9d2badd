//! The names of a response's headers, each once and in the order of their bytes.
ghost use Rattle.std.specs.Prelude.{◌≡◌, ◌≤◌, ◌∷◌, length, IfOk, OnOk, IfSome, IfNone, fold, map};
ghost use Rattle.std.specs.List.{insert};
ghost use Rattle.http1_grammar.specs.Headers.{Header};
ghost use Rattle.cors_rules.specs.Sets.{joined, joined_some, names_in, with};

use cors_sets::{name_value, push_literal};
use http_header::HeaderName;
use http1_plain::{FieldValue, HeaderList};
use std::alloc::{AllocError, Global};
use std::cmp::Ordering;

// Where the name goes, if it is not there.
fn place_of(names: &[FieldValue], name: &[u8]) -> Option<usize>
    ensures within { IfSome result (λ at. at ≤ length names.now) }
    ensures placed { IfSome result (λ at. with names.now name.now ≡ insert names.now at name.now) }
    ensures there { IfNone result (with names.now name.now ≡ names.now) }
{
    let mut at = 0;
    while at < names.len() {
        match name.cmp(names[at].as_bytes()) {
            Ordering::Less => return Some(at),
            Ordering::Equal => return None,
            Ordering::Greater => at += 1,
        }
    }
    Some(at)
}

// One more name.
fn add_name(names: &mut Vec<FieldValue>, alloc: Global, name: &HeaderName) -> Result<(), AllocError>
    ensures { OnOk result (names.new.items ≡ with names.old.items name.now) }
{
    let Some(at) = place_of(names, name.as_bytes()) else {
        return Ok(());
    };
    names.insert(at, name_value(alloc, name)?)?;
    Ok(())
}

// The names that stand in the list, beside those that are there.
#[tactic(auto, using(std::proofs::lemmas::List::Sums::fold_more))]
fn add_names(names: &mut Vec<FieldValue>, headers: &HeaderList) -> Result<(), AllocError>
    ensures { OnOk result (names.new.items ≡ fold with names.old.items (map (λ (header : Header). header.0) headers.now)) }
{
    for (name, _value) in headers.entries() {
        add_name(names, headers.allocator(), name)?;
    }
    Ok(())
}

// Appends the names, with `, ` before each.
fn push_names(text: &mut FieldValue, names: &[FieldValue]) -> Result<(), AllocError>
    ensures { OnOk result (text.new ≡ joined (text.old ∷ names.now)) }
{
    for name in names {
        push_literal(text, ", ")?;
        text.push_value(name)?;
    }
    Ok(())
}

// The names behind the first, with `, ` between two.
fn joined_behind(first: FieldValue, names: &[FieldValue]) -> Result<FieldValue, AllocError>
    ensures { IfOk result (λ text. text ≡ joined (first ∷ names.now)) }
{
    let mut text = first;
    match push_names(&mut text, names) {
        Ok(()) => Ok(text),
        Err(error) => {
            drop(text);
            Err(error)
        }
    }
}

fn joined_some(names: &[FieldValue]) -> Result<Option<FieldValue>, AllocError>
    ensures { IfOk result (λ value. value ≡ joined_some names.now) }
{
    match names {
        [] => Ok(None),
        [first, rest @ ..] => Ok(Some(joined_behind(first.copy()?, rest)?)),
    }
}

// The names that stand in a list of several headers, in one value.
fn joined_of(headers: &HeaderList) -> Result<Option<FieldValue>, AllocError>
    ensures { IfOk result (λ value. value ≡ joined_some (names_in headers.now)) }
{
    let mut names = Vec::with_capacity(headers.allocator(), headers.len())?;
    let added = add_names(&mut names, headers);
    let joined = match added {
        Ok(()) => joined_some(&names),
        Err(error) => Err(error),
    };
    drop(names);
    joined
}

/// The names that stand in the list, in one value. That of one header takes no memory where it is short.
pub(crate) fn joined_names(headers: &HeaderList) -> Result<Option<FieldValue>, AllocError>
    ensures { IfOk result (λ value. value ≡ joined_some (names_in headers.now)) }
{
    match headers.entries() {
        [] => Ok(None),
        [(name, _value)] => Ok(Some(name_value(headers.allocator(), name)?)),
        _ => joined_of(headers),
    }
}
