//! Everything, or a finite set.
ghost use Rattle.std.specs.Prelude.{◌≡◌, [], IfOk, OnOk};
ghost use Rattle.cors_rules.specs.Allowed.{some_of};
ghost use Rattle.cors_rules.specs.Building.{and_text};
ghost use Rattle.cors_rules.specs.Equality.{some_eq};
ghost use Rattle.cors_rules.specs.Sets.{with};

use crate::text_set::TextSet;
use cors_rules::AllOrSome;
use http1_plain::FieldValue;
use std::alloc::{AllocError, Global};
use std::mem::replace;

// A set of one text.
fn set_of(alloc: Global, text: FieldValue) -> Result<TextSet, AllocError>
    ensures { IfOk result (λ set. set ≡ with [] text) }
{
    let mut set = TextSet::new(alloc);
    match set.insert(text) {
        Ok(()) => Ok(set),
        Err(error) => {
            drop(set);
            Err(error)
        }
    }
}

/// The text becomes a member: the first one after everything starts an empty set.
pub fn allow_text(
    alloc: Global,
    set: &mut AllOrSome<TextSet>,
    text: FieldValue,
) -> Result<(), AllocError>
    ensures { OnOk result (set.new ≡ and_text set.old text) }
{
    match set {
        AllOrSome::Some(texts) => texts.insert(text),
        AllOrSome::All => {
            let texts = set_of(alloc, text)?;
            drop(replace(set, AllOrSome::Some(texts)));
            Ok(())
        }
    }
}

/// Whether both are everything, or both are the same finite set.
pub fn allows_same(a: &AllOrSome<TextSet>, b: &AllOrSome<TextSet>) -> bool
    ensures { result ≡ some_eq (some_of a.now) (some_of b.now) }
{
    match (a, b) {
        (AllOrSome::All, AllOrSome::All) => true,
        (AllOrSome::Some(a), AllOrSome::Some(b)) => a == b,
        (AllOrSome::All, AllOrSome::Some(_)) => false,
        (AllOrSome::Some(_), AllOrSome::All) => false,
    }
}

/// A copy of a set that requests are searched for.
pub fn copy_to_ask(set: &AllOrSome<TextSet>) -> Result<AllOrSome<TextSet>, AllocError>
    ensures { IfOk result (λ copy. copy ≡ set.now) }
{
    match set {
        AllOrSome::All => Ok(AllOrSome::All),
        AllOrSome::Some(texts) => Ok(AllOrSome::Some(texts.copy()?.in_row()?)),
    }
}

/// A copy of a set that answers print.
pub fn copy_to_print(set: &AllOrSome<TextSet>) -> Result<AllOrSome<TextSet>, AllocError>
    ensures { IfOk result (λ copy. copy ≡ set.now) }
{
    match set {
        AllOrSome::All => Ok(AllOrSome::All),
        AllOrSome::Some(texts) => Ok(AllOrSome::Some(texts.copy_joined()?)),
    }
}

/// A copy of a set that requests ask for and answers print.
pub fn copy_to_ask_and_print(set: &AllOrSome<TextSet>) -> Result<AllOrSome<TextSet>, AllocError>
    ensures { IfOk result (λ copy. copy ≡ set.now) }
{
    match set {
        AllOrSome::All => Ok(AllOrSome::All),
        AllOrSome::Some(texts) => Ok(AllOrSome::Some(texts.copy_joined()?.in_row()?)),
    }
}
