//! Headers' values.
use crate::headers::value_of;
use crate::shown::{every, hold};
use http1_plain::{FieldFault, FieldValue, trimmed};
use service_core::Octets;
use std::alloc::{AllocError, Global};
use std::test::Fail;

fn accept(alloc: Global) -> Result<FieldValue, AllocError> {
    FieldValue::of_field_bytes(alloc, b"Accept")
}

fn origin(alloc: Global) -> Result<FieldValue, AllocError> {
    Ok(FieldValue::from_octets(Octets::of(alloc, b"Origin")?))
}

fn add_both(value: &mut FieldValue, accept: &FieldValue) -> Result<(), AllocError> {
    value.push_field_bytes(b"Origin")?;
    value.push_field_bytes(b", ")?;
    value.push_value(accept)
}

fn add_both_of(alloc: Global, value: &mut FieldValue) -> Result<(), AllocError> {
    match accept(alloc) {
        Ok(accept) => add_both(value, &accept),
        Err(error) => Err(error),
    }
}

fn both(alloc: Global) -> Result<FieldValue, AllocError> {
    let mut value = FieldValue::empty(alloc);
    add_both_of(alloc, &mut value)?;
    Ok(value)
}

// Whether the value is of these bytes.
fn is(value: &FieldValue, bytes: &[u8]) -> bool {
    value.as_bytes() == bytes
}

fn is_empty(alloc: Global) -> bool {
    is(&FieldValue::empty(alloc), b"")
}

fn are_joined(alloc: Global) -> Result<bool, AllocError> {
    match both(alloc) {
        Ok(value) => Ok(is(&value, b"Origin, Accept")),
        Err(error) => Err(error),
    }
}

#[test]
fn values_are_joined(rt: HostRuntime) -> Result<(), Fail> {
    let alloc = rt.alloc();
    hold(&rt, &[Ok(is_empty(alloc)), are_joined(alloc)])
}

fn are_equal(one: &FieldValue, other: &FieldValue) -> bool {
    *one == *other
}

fn equals_its_copy(value: &FieldValue) -> Result<bool, AllocError> {
    match value.copy() {
        Ok(copy) => Ok(are_equal(value, &copy)),
        Err(error) => Err(error),
    }
}

fn equals_its_clone(value: &FieldValue) -> Result<bool, AllocError> {
    match value.clone() {
        Ok(copy) => Ok(are_equal(value, &copy)),
        Err(error) => Err(error),
    }
}

// Whether a copy and a clone are equal to the value.
fn equals_its_copies(value: &FieldValue) -> Result<bool, AllocError> {
    every(&[equals_its_copy(value), equals_its_clone(value)])
}

// Whether the first value is less than the second, both ways.
fn are_in_order(less: &FieldValue, greater: &FieldValue) -> bool {
    *less < *greater && *greater > *less
}

fn is_less_than_origin(alloc: Global, less: &FieldValue) -> Result<bool, AllocError> {
    match origin(alloc) {
        Ok(origin) => Ok(are_in_order(less, &origin)),
        Err(error) => Err(error),
    }
}

fn accept_equals_its_copies(alloc: Global) -> Result<bool, AllocError> {
    match accept(alloc) {
        Ok(accept) => equals_its_copies(&accept),
        Err(error) => Err(error),
    }
}

fn origin_equals_its_copies(alloc: Global) -> Result<bool, AllocError> {
    match origin(alloc) {
        Ok(origin) => equals_its_copies(&origin),
        Err(error) => Err(error),
    }
}

fn accept_is_less_than_origin(alloc: Global) -> Result<bool, AllocError> {
    match accept(alloc) {
        Ok(accept) => is_less_than_origin(alloc, &accept),
        Err(error) => Err(error),
    }
}

#[test]
fn values_are_compared_by_their_bytes(rt: HostRuntime) -> Result<(), Fail> {
    let alloc = rt.alloc();
    hold(
        &rt,
        &[
            accept_equals_its_copies(alloc),
            origin_equals_its_copies(alloc),
            accept_is_less_than_origin(alloc),
        ],
    )
}

// Whether the first bad byte of the text stands at this place.
fn is_bad_at(alloc: Global, bytes: &[u8], wanted: usize) -> Result<bool, AllocError> {
    match FieldValue::new(alloc, bytes) {
        Ok(_) => Ok(false),
        Err(FieldFault::BadByte { place }) => Ok(place == wanted),
        Err(FieldFault::Memory) => Err(AllocError),
    }
}

#[test]
fn a_bad_byte_is_told_with_its_place(rt: HostRuntime) -> Result<(), Fail> {
    let alloc = rt.alloc();
    hold(
        &rt,
        &[
            is_bad_at(alloc, b"a\r\nb: c", 1),
            is_bad_at(alloc, b"a\0b", 1),
        ],
    )
}

fn is_told(value: &FieldValue, wanted: Option<&str>) -> bool {
    value.as_text() == wanted
}

// Whether the value of these bytes has this text.
fn is_text(alloc: Global, bytes: &[u8], wanted: Option<&str>) -> Result<bool, AllocError> {
    match value_of(alloc, bytes) {
        Ok(value) => Ok(is_told(&value, wanted)),
        Err(error) => Err(error),
    }
}

fn are_texts(alloc: Global) -> Result<bool, AllocError> {
    every(&[
        is_text(alloc, b"\tvisible ~", Some("\tvisible ~")),
        is_text(alloc, b"", Some("")),
    ])
}

fn are_no_texts(alloc: Global) -> Result<bool, AllocError> {
    every(&[
        is_text(alloc, b"\x80", None),
        is_text(alloc, b"a\x7f", None),
    ])
}

#[test]
fn values_as_text(rt: HostRuntime) -> Result<(), Fail> {
    let alloc = rt.alloc();
    hold(&rt, &[are_texts(alloc), are_no_texts(alloc)])
}

fn is_trimmed(part: &[u8], wanted: &[u8]) -> bool {
    trimmed(part) == wanted
}

#[test]
fn white_space_around_a_part_goes(rt: HostRuntime) -> Result<(), Fail> {
    let around = is_trimmed(b" \ta \tb\t ", b"a \tb");
    let alone = is_trimmed(b" \t", b"") && is_trimmed(b"", b"") && is_trimmed(b"a", b"a");
    hold(&rt, &[Ok(around), Ok(alone)])
}
