//! Copies of a set of everything or some, and what is written into one.
ghost use Rattle.std.specs.Prelude.{◌≡◌, Some};
ghost use Rattle.cors_rules.specs.Allowed.{some_of};

use crate::shown::hold;
use cors_rules::AllOrSome;
use std::alloc::{AllocError, Global};
use std::test::Fail;

// Whether a copy equals its original.
fn copies_alike<T: Clone + PartialEq>(set: &AllOrSome<T>) -> Result<bool, AllocError> {
    let copy = set.clone()?;
    Ok(copy == *set)
}

#[test]
fn a_copy_allows_what_its_original_allows(rt: HostRuntime) -> Result<(), Fail> {
    hold(
        &rt,
        &[
            copies_alike(&AllOrSome::Some(7u8)),
            copies_alike(&AllOrSome::<u8>::All),
        ],
    )
}

// Only this number is allowed from now on, where not everything is.
fn narrow(set: &mut AllOrSome<u8>, to: u8)
    requires { some_of set.old ≡ Some 7 }
    ensures { some_of set.new ≡ Some to }
{
    if let Some(number) = set.as_mut() {
        *number = to;
    }
}

#[test]
fn what_is_written_is_allowed(rt: HostRuntime) {
    let mut set = AllOrSome::Some(7u8);
    narrow(&mut set, 8);
    assert!(rt; set.as_ref() == Some(&8));
}
