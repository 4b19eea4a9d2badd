//! Two links that meet.
use crate::gated_binder::GatedBinder;
use crate::gated_link::GatedLink;
use crate::gated_listener::GatedListener;
use crate::runs::{NEVER, Row, ends_with};
use crate::shared::Shared;
use crate::shown::holds;
use server_edge::ThreadSpawner;
use server_run::Host;
use std::alloc::{AllocError, AllocGlobal};
use std::test::Fail;

// How many bytes answer the request of a link.
const ANSWER: u64 = 239;

const SERVED: Row<'static> = Row {
    words: &[b"listen", b"127.0.0.1:8080", b"2"],
    write: NEVER,
    start: NEVER,
    status: 0,
    got: b"connections 2\nserved 2\nend drained\n",
};

// A binder whose listener gives two links with these flags and numbers.
fn binder(shared: &Shared) -> Result<GatedBinder, AllocError> {
    let first = GatedLink::new(shared.share()?, 0);
    let second = GatedLink::new(shared.share()?, 1);
    Ok(GatedBinder::new(Some(GatedListener::new(first, second))))
}

// Whether a link raised its flag, and was answered.
fn is_answered(shared: &Shared, number: usize) -> bool {
    shared.is_raised(number) && shared.written(number) == ANSWER
}

// Whether both links were bound and served at the same time.
fn meet<Ho: Host + AllocGlobal + 'static>(rt: &Ho) -> Result<bool, AllocError> {
    let shared = Shared::new(rt.alloc())?;
    let mut binder = binder(&shared)?;
    let mut spawner = ThreadSpawner::new(rt.alloc())?;
    let ended = ends_with(rt, SERVED, &mut spawner, &mut binder);
    if shared.came_apart() {
        return Ok(false);
    }
    Ok(ended? && binder.refusals() == 0 && is_answered(&shared, 0) && is_answered(&shared, 1))
}

// No thread alone passes it, in whatever order it reads: a link would have to be read on before the other is read.
#[test]
fn gated_listen(rt: HostRuntime) -> Result<(), Fail> {
    holds(&rt, meet(&rt))
}
