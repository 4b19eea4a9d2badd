//! A row of names is searched.
use crate::shown::hold;
use cors_sets::TextSet;
use http1_plain::FieldValue;
use std::alloc::{AllocError, Global};
use std::test::Fail;

fn insert(set: &mut TextSet, alloc: Global, name: &str) -> Result<(), AllocError> {
    match FieldValue::new(alloc, name.as_bytes()) {
        Ok(value) => set.insert(value),
        Err(_) => Err(AllocError),
    }
}

fn insert_all(set: &mut TextSet, alloc: Global, names: &[&str]) -> Result<(), AllocError> {
    for name in names {
        insert(set, alloc, name)?;
    }
    Ok(())
}

// The names, in a row.
fn searched(alloc: Global, names: &[&str]) -> Result<TextSet, AllocError> {
    let mut set = TextSet::new(alloc);
    match insert_all(&mut set, alloc, names) {
        Ok(()) => set.in_row(),
        Err(error) => {
            drop(set);
            Err(error)
        }
    }
}

// How many of the names are members, in lower case.
fn count(set: &TextSet, names: &[&str]) -> usize {
    let mut count: usize = 0;
    for name in names {
        if set.contains_lowered(name.as_bytes()) {
            count = count.saturating_add(1);
        }
    }
    count
}

const MEMBERS: [&str; 5] = ["x-zone", "accept", "x-zones", "content-type", "accept"];

fn members(alloc: Global) -> Result<TextSet, AllocError> {
    searched(alloc, &MEMBERS)
}

// Whether so many of the names are found in the row.
fn finds(alloc: Global, names: &[&str], wanted: usize) -> Result<bool, AllocError> {
    match members(alloc) {
        Ok(set) => {
            let shown = count(&set, names) == wanted;
            drop(set);
            Ok(shown)
        }
        Err(error) => Err(error),
    }
}

#[test]
fn a_row_is_searched_in_any_case(rt: HostRuntime) -> Result<(), Fail> {
    let alloc = rt.alloc();
    let members = ["ACCEPT", "Content-Type", "x-zone", "X-ZONES"];
    let others = ["", "accep", "accepts", "content_type", "x-zon", "y"];
    hold(&rt, &[finds(alloc, &members, 4), finds(alloc, &others, 0)])
}
