//! Listeners of a binder in memory.
use crate::runs::{NEVER, Row, ends};
use crate::shown::holds;
use crate::stocks::{empty, of_three, refusing};
use server_bind::MemoryBinder;
use server_run::Host;
use std::alloc::{AllocError, AllocGlobal};
use std::test::Fail;

// Whether the run over this binder ends as told.
fn ends_over<Ho: Host + AllocGlobal + 'static>(
    rt: &Ho,
    row: Row,
    binder: Result<MemoryBinder, AllocError>,
) -> Result<bool, AllocError> {
    let mut binder = binder?;
    ends(rt, row, &mut binder)
}

const TWO: Row<'static> = Row {
    words: &[b"listen", b"127.0.0.1:8080", b"2"],
    write: NEVER,
    start: NEVER,
    status: 0,
    got: b"connections 2\nserved 2\nend drained\n",
};

const FIVE: Row<'static> = Row {
    words: &[b"listen", b"127.0.0.1:8080", b"5"],
    write: NEVER,
    start: NEVER,
    status: 0,
    got: b"connections 3\nserved 3\nend drained\n",
};

#[test]
fn a_bound_listener_ends_after_n_connections_or_by_itself(rt: HostRuntime) -> Result<(), Fail> {
    holds(&rt, ends_over(&rt, TWO, of_three(rt.alloc())))?;
    holds(&rt, ends_over(&rt, FIVE, of_three(rt.alloc())))
}

const REFUSED: Row<'static> = Row {
    words: &[b"listen", b"127.0.0.1:8080", b"2"],
    write: NEVER,
    start: NEVER,
    status: 9,
    got: b"cannot listen\n",
};

#[test]
fn an_address_that_is_refused_is_told_and_not_tried_again(rt: HostRuntime) -> Result<(), Fail> {
    holds(&rt, ends_over(&rt, REFUSED, empty(rt.alloc())))?;
    holds(&rt, ends_over(&rt, REFUSED, refusing(rt.alloc())))
}

const UNWRITTEN: Row<'static> = Row {
    words: &[b"listen", b"127.0.0.1:8080", b"2"],
    write: 0,
    start: NEVER,
    status: 6,
    got: b"",
};

const UNSTARTED: Row<'static> = Row {
    words: &[b"listen", b"127.0.0.1:8080", b"2"],
    write: NEVER,
    start: 1,
    status: 8,
    got: b"no worker could be started\n",
};

#[test]
fn a_summary_that_cannot_be_written_is_told_and_so_is_a_worker_that_cannot_start(
    rt: HostRuntime,
) -> Result<(), Fail> {
    holds(&rt, ends_over(&rt, UNWRITTEN, of_three(rt.alloc())))?;
    holds(&rt, ends_over(&rt, UNSTARTED, of_three(rt.alloc())))
}
