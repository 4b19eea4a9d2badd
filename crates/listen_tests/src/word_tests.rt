//! Words that are the form, and words that are not.
use crate::gated_binder::GatedBinder;
use crate::runs::{NEVER, Row, ends};
use crate::shown::holds;
use server_run::Host;
use std::alloc::{AllocError, AllocGlobal};
use std::test::Fail;

const NO_FORM: [&[&[u8]]; 7] = [
    &[b"listen"],
    &[b"listen", b"127.0.0.1:80"],
    &[b"listen", b"127.0.0.1:80", b"01"],
    &[b"listen", b"127.0.0.1:80", b"0"],
    &[b"listen", b"127.0.0.1:80", b"1000001"],
    &[b"listen", b"127.0.0.1:80", b"1", b"1"],
    &[b"listen", b"127.0.0.1:\xff", b"1"],
];

// The run of words that are no form.
fn of_no_form<'a>(words: &'a [&'a [u8]]) -> Row<'a> {
    Row {
        words,
        write: NEVER,
        start: NEVER,
        status: 2,
        got: b"usage: replay | listen ADDR N | generate N K\n",
    }
}

const MOST: Row<'static> = Row {
    words: &[b"listen", b"127.0.0.1:80", b"1000000"],
    write: NEVER,
    start: NEVER,
    status: 9,
    got: b"cannot listen\n",
};

// Whether no binder is asked at words that are no form, and one is asked once for the most connections.
fn asks_rightly<Ho: Host + AllocGlobal + 'static>(rt: &Ho) -> Result<bool, AllocError> {
    let mut binder = GatedBinder::new(None);
    for words in NO_FORM {
        if !ends(rt, of_no_form(words), &mut binder)? || binder.refusals() != 0 {
            return Ok(false);
        }
    }
    Ok(ends(rt, MOST, &mut binder)? && binder.refusals() == 1)
}

#[test]
fn only_words_of_the_form_bind_an_address(rt: HostRuntime) -> Result<(), Fail> {
    holds(&rt, asks_rightly(&rt))
}
