//! Lists of headers looked up and changed.
ghost use Rattle.std.specs.Prelude.{◌≡◌, length};

use crate::bytes::{add, empty, is_made};
use crate::headers::{add_line, lines, list_of, name_of, value_of};
use crate::shown::{every, hold, holds};
use http_header::{AGE, HOST, HeaderName, VARY};
use http1_plain::{FieldValue, HeaderList, Single};
use service_core::Octets;
use std::alloc::{AllocError, Global};
use std::test::Fail;

// Whether the list has these headers, which are told as lines.
fn has_lines(alloc: Global, headers: &HeaderList, wanted: &[u8]) -> Result<bool, AllocError> {
    is_made(&lines(alloc, headers), wanted)
}

// The list vary: a, age: 1, vary: b, vary: c.
fn four_headers(alloc: Global) -> Result<HeaderList, AllocError> {
    list_of(
        alloc,
        &[("Vary", "a"), ("Age", "1"), ("vary", "b"), ("VARY", "c")],
    )
}

// Whether the first value of the name is this one.
fn begins_with(headers: &HeaderList, name: &HeaderName, wanted: &[u8]) -> bool {
    match headers.get(name) {
        Some(value) => value.as_bytes() == wanted,
        None => false,
    }
}

// How often the name stands, and 2 where that is more than once.
fn times(headers: &HeaderList, name: &[u8]) -> u8 {
    match headers.single(name) {
        Single::Missing => 0,
        Single::One(_) => 1,
        Single::Several => 2,
    }
}

// Whether the four headers are found in any case.
fn are_found(list: &HeaderList) -> bool {
    list.len() == 4
        && begins_with(list, &VARY, b"a")
        && times(list, b"vary") == 2
        && times(list, b"age") == 1
        && times(list, b"host") == 0
}

fn four_are_found(alloc: Global) -> Result<bool, AllocError> {
    match four_headers(alloc) {
        Ok(list) => Ok(are_found(&list)),
        Err(error) => Err(error),
    }
}

#[test]
fn a_header_is_looked_up_in_any_case(rt: HostRuntime) -> Result<(), Fail> {
    holds(&rt, four_are_found(rt.alloc()))
}

// The value takes the place of the first header of the name.
fn insert(
    list: &mut HeaderList,
    alloc: Global,
    name: HeaderName,
    value: &[u8],
) -> Result<(), AllocError> {
    list.insert(name, value_of(alloc, value)?)
}

// Whether the headers are told so once the value is inserted.
fn inserts(
    list: &mut HeaderList,
    alloc: Global,
    header: (HeaderName, &[u8]),
    wanted: &[u8],
) -> Result<bool, AllocError> {
    insert(list, alloc, header.0, header.1)?;
    has_lines(alloc, list, wanted)
}

fn inserts_both(alloc: Global, list: &mut HeaderList) -> Result<bool, AllocError> {
    every(&[
        inserts(list, alloc, (VARY, b"Origin"), b"vary=Origin;age=1;"),
        inserts(list, alloc, (HOST, b"h"), b"vary=Origin;age=1;host=h;"),
    ])
}

fn four_take_both(alloc: Global) -> Result<bool, AllocError> {
    match four_headers(alloc) {
        Ok(mut list) => inserts_both(alloc, &mut list),
        Err(error) => Err(error),
    }
}

#[test]
fn an_inserted_header_takes_the_place_of_the_first_of_its_name(
    rt: HostRuntime,
) -> Result<(), Fail> {
    holds(&rt, four_take_both(rt.alloc()))
}

// So many headers of the name go.
fn loses(list: &mut HeaderList, name: &HeaderName, wanted: usize) -> bool {
    list.remove(name) == wanted
}

// Whether the copy has its four headers when one of the list has gone.
fn stays(alloc: Global, list: &mut HeaderList, copy: &HeaderList) -> Result<bool, AllocError> {
    every(&[
        Ok(loses(list, &AGE, 1)),
        has_lines(alloc, list, b"vary=a;vary=b;vary=c;"),
        has_lines(alloc, copy, b"vary=a;age=1;vary=b;vary=c;"),
    ])
}

fn copy_stays(alloc: Global, list: &mut HeaderList) -> Result<bool, AllocError> {
    match list.copy() {
        Ok(copy) => stays(alloc, list, &copy),
        Err(error) => Err(error),
    }
}

fn copy_of_four_stays(alloc: Global) -> Result<bool, AllocError> {
    match four_headers(alloc) {
        Ok(mut list) => copy_stays(alloc, &mut list),
        Err(error) => Err(error),
    }
}

#[test]
fn a_copy_stays_where_its_list_is_changed(rt: HostRuntime) -> Result<(), Fail> {
    holds(&rt, copy_of_four_stays(rt.alloc()))
}

// The list a: 1, b: 2, a: 3.
fn three_headers(alloc: Global) -> Result<HeaderList, AllocError> {
    list_of(alloc, &[("a", "1"), ("b", "2"), ("a", "3")])
}

// The same as `lines`, by the list's iterator.
fn lines_by_iter(alloc: Global, headers: &HeaderList) -> Result<Octets, AllocError> {
    let mut lines = empty(alloc);
    for (name, value) in headers.iter() {
        add_line(&mut lines, name.as_bytes(), value.as_bytes())?;
    }
    Ok(lines)
}

fn count_of_headers(headers: &HeaderList) -> usize
    ensures { result ≡ length headers.now }
{
    headers.iter().count()
}

fn are_empty(alloc: Global) -> bool {
    HeaderList::new(alloc).is_empty()
}

fn are_told(alloc: Global, list: &HeaderList) -> Result<bool, AllocError> {
    is_made(&lines_by_iter(alloc, list), b"a=1;b=2;a=3;")
}

// Whether the three headers are told in order.
fn are_in_order(alloc: Global, list: &HeaderList) -> Result<bool, AllocError> {
    every(&[
        Ok(count_of_headers(list) == 3),
        are_told(alloc, list),
        Ok(!list.is_empty()),
    ])
}

fn three_are_in_order(alloc: Global) -> Result<bool, AllocError> {
    match three_headers(alloc) {
        Ok(list) => are_in_order(alloc, &list),
        Err(error) => Err(error),
    }
}

#[test]
fn headers_are_told_in_order(rt: HostRuntime) -> Result<(), Fail> {
    let alloc = rt.alloc();
    hold(&rt, &[three_are_in_order(alloc), Ok(are_empty(alloc))])
}

// The values of the name, one behind the other.
fn joined(
    alloc: Global,
    headers: &HeaderList,
    name: &HeaderName,
) -> Result<FieldValue, AllocError> {
    let mut text = FieldValue::empty(alloc);
    for value in headers.get_all(name) {
        text.push_value(value)?;
    }
    Ok(text)
}

// Whether the values of the name are these, one behind the other.
fn has_values(
    alloc: Global,
    headers: &HeaderList,
    name: &HeaderName,
    wanted: &[u8],
) -> Result<bool, AllocError> {
    match joined(alloc, headers, name) {
        Ok(value) => {
            let shown = value.as_bytes() == wanted;
            drop(value);
            Ok(shown)
        }
        Err(error) => Err(error),
    }
}

// The same of a name that is told by its bytes.
fn has_named_values(
    alloc: Global,
    list: &HeaderList,
    name: &[u8],
    wanted: &[u8],
) -> Result<bool, AllocError> {
    match name_of(alloc, name) {
        Ok(name) => {
            let shown = has_values(alloc, list, &name, wanted);
            drop(name);
            shown
        }
        Err(error) => Err(error),
    }
}

// Whether all values of a name are told, and none of one that is not there.
fn has_all_values(alloc: Global, list: &HeaderList) -> Result<bool, AllocError> {
    every(&[
        has_named_values(alloc, list, b"A", b"13"),
        has_values(alloc, list, &HOST, b""),
    ])
}

fn three_have_all_values(alloc: Global) -> Result<bool, AllocError> {
    match three_headers(alloc) {
        Ok(list) => has_all_values(alloc, &list),
        Err(error) => Err(error),
    }
}

#[test]
fn all_values_of_a_name(rt: HostRuntime) -> Result<(), Fail> {
    holds(&rt, three_have_all_values(rt.alloc()))
}

// Each name of the list once, one behind the other.
fn names(alloc: Global, headers: &HeaderList) -> Result<Octets, AllocError> {
    let mut text = empty(alloc);
    for name in headers.names() {
        add(&mut text, name.as_bytes())?;
    }
    Ok(text)
}

fn has_names(alloc: Global, list: &HeaderList) -> Result<bool, AllocError> {
    is_made(&names(alloc, list), b"ab")
}

fn has_two_names(alloc: Global) -> Result<bool, AllocError> {
    match three_headers(alloc) {
        Ok(list) => has_names(alloc, &list),
        Err(error) => Err(error),
    }
}

#[test]
fn each_name_is_told_once(rt: HostRuntime) -> Result<(), Fail> {
    holds(&rt, has_two_names(rt.alloc()))
}

// So many headers of the name go, which is told by its bytes.
fn loses_named(
    list: &mut HeaderList,
    alloc: Global,
    name: &[u8],
    wanted: usize,
) -> Result<bool, AllocError> {
    match name_of(alloc, name) {
        Ok(name) => {
            let shown = loses(list, &name, wanted);
            drop(name);
            Ok(shown)
        }
        Err(error) => Err(error),
    }
}

// Whether only the headers of the name go.
fn loses_only_named(alloc: Global, list: &mut HeaderList) -> Result<bool, AllocError> {
    every(&[
        Ok(loses(list, &HOST, 0)),
        loses_named(list, alloc, b"a", 2),
        has_lines(alloc, list, b"b=2;"),
    ])
}

fn three_lose_only_named(alloc: Global) -> Result<bool, AllocError> {
    match three_headers(alloc) {
        Ok(mut list) => loses_only_named(alloc, &mut list),
        Err(error) => Err(error),
    }
}

#[test]
fn headers_of_a_name_go(rt: HostRuntime) -> Result<(), Fail> {
    holds(&rt, three_lose_only_named(rt.alloc()))
}

// Two names of three headers that `HeaderList::names` marks alike: 31 times 97 and 110 more is 31 times 99 and 48 more.
fn alike_headers(alloc: Global) -> Result<HeaderList, AllocError> {
    list_of(alloc, &[("an", "1"), ("c0", "2"), ("AN", "3")])
}

// Whether the two are told apart, and a third is not there.
fn are_told_apart(alloc: Global, list: &mut HeaderList) -> Result<bool, AllocError> {
    every(&[
        has_named_values(alloc, list, b"an", b"13"),
        has_named_values(alloc, list, b"c0", b"2"),
        has_named_values(alloc, list, b"a0", b""),
        is_made(&names(alloc, list), b"anc0"),
        Ok(times(list, b"c0") == 1 && times(list, b"a0") == 0),
        loses_named(list, alloc, b"a0", 0),
        loses_named(list, alloc, b"an", 2),
    ])
}

fn alike_are_told_apart(alloc: Global) -> Result<bool, AllocError> {
    match alike_headers(alloc) {
        Ok(mut list) => are_told_apart(alloc, &mut list),
        Err(error) => Err(error),
    }
}

#[test]
fn names_that_share_a_mark_are_told_apart(rt: HostRuntime) -> Result<(), Fail> {
    holds(&rt, alike_are_told_apart(rt.alloc()))
}

// Whether a list that was made with room has nothing in it.
fn is_empty_with_room(alloc: Global) -> Result<bool, AllocError> {
    let list = HeaderList::with_capacity(alloc, 3)?;
    let shown = list.is_empty() && list.len() == 0;
    drop(list);
    Ok(shown)
}

#[test]
fn a_list_with_room_is_empty(rt: HostRuntime) -> Result<(), Fail> {
    holds(&rt, is_empty_with_room(rt.alloc()))
}
