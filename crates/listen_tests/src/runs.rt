//! Runs of the program, and how they end.
use server_bind::Binder;
use server_edge::ScriptSpawner;
use server_jobs::{Spawner, StepClock};
use server_program::{MemorySink, MemorySource, run};
use server_run::{Host, Listener};
use service_core::Octets;
use std::alloc::{AllocError, AllocGlobal, Global};

/// The number of a call that never comes.
pub(crate) const NEVER: u64 = u64::MAX;

/// The words of a run, the numbers of the write that fails and of the start that is refused, and how the run ends: its
/// status, and what the sink got.
#[derive(Clone, Copy)]
pub(crate) struct Row<'a> {
    pub(crate) words: &'a [&'a [u8]],
    pub(crate) write: u64,
    pub(crate) start: u64,
    pub(crate) status: u8,
    pub(crate) got: &'a [u8],
}

/// What a run has beside its spawner and its binder. The first read of its source fails, which shows where none is to come.
#[derive(Drop)]
struct Parts {
    said: Vec<Octets>,
    source: MemorySource,
    sink: MemorySink,
}

// The words of a command line.
fn said(alloc: Global, words: &[&[u8]]) -> Result<Vec<Octets>, AllocError> {
    let mut list = Vec::new(alloc);
    for word in words {
        list.push(Octets::of(alloc, word)?)?;
    }
    Ok(list)
}

fn parts_of(alloc: Global, row: Row) -> Result<Parts, AllocError> {
    let script = Octets::of(alloc, b"listener")?;
    Ok(Parts {
        said: said(alloc, row.words)?,
        source: MemorySource::new(script, vec![in alloc; 0]?),
        sink: MemorySink::new(alloc, 4096, vec![in alloc; row.write]?)?,
    })
}

// Whether a summary tells that fewer connections were served than came. The numbers have one digit here, at 12 and at 21.
fn tells_fewer(got: &[u8]) -> bool {
    got.starts_with(b"connections ".as_slice()) && got.get(12) != got.get(21)
}

// Whether a run with this status found no memory, or a connection of it, or a thread.
fn lacks_memory(row: Row, status: u8, got: &[u8]) -> bool {
    status == 7
        || (status == 8 && row.status != 8)
        || got.ends_with(b"end memory\n".as_slice())
        || tells_fewer(got)
}

// Whether a run with this status ends as told, where it had enough memory.
fn is_end(row: Row, status: u8, got: &[u8]) -> Result<bool, AllocError> {
    if lacks_memory(row, status, got) {
        return Err(AllocError);
    }
    Ok(status == row.status && got == row.got)
}

fn status_of<Ho, Sp, Bi>(
    rt: &Ho,
    alloc: Global,
    parts: &mut Parts,
    spawner: &mut Sp,
    binder: &mut Bi,
) -> u8
where
    Ho: Host + 'static,
    Sp: Spawner,
    Bi: Binder<Listener: Listener<Link: Send + 'static>>,
    <Bi::Listener as Listener>::Link: 'static,
{
    run(
        rt,
        alloc,
        &parts.said,
        &mut parts.source,
        &mut parts.sink,
        &mut StepClock::new(0, 500),
        spawner,
        binder,
    )
}

/// Whether the run ends as told, with this spawner.
pub(crate) fn ends_with<Ho, Sp, Bi>(
    rt: &Ho,
    row: Row,
    spawner: &mut Sp,
    binder: &mut Bi,
) -> Result<bool, AllocError>
where
    Ho: Host + AllocGlobal + 'static,
    Sp: Spawner,
    Bi: Binder<Listener: Listener<Link: Send + 'static>>,
    <Bi::Listener as Listener>::Link: 'static,
{
    let alloc = rt.alloc();
    match parts_of(alloc, row) {
        Ok(mut parts) => {
            let status = status_of(rt, alloc, &mut parts, spawner, binder);
            let shown = is_end(row, status, parts.sink.got());
            drop(parts);
            shown
        }
        Err(error) => Err(error),
    }
}

/// Whether the run on threads ends as told.
pub(crate) fn ends<Ho, Bi>(rt: &Ho, row: Row, binder: &mut Bi) -> Result<bool, AllocError>
where
    Ho: Host + AllocGlobal + 'static,
    Bi: Binder<Listener: Listener<Link: Send + 'static>>,
    <Bi::Listener as Listener>::Link: 'static,
{
    let alloc = rt.alloc();
    let mut spawner = ScriptSpawner::new(alloc, vec![in alloc; row.start]?)?;
    ends_with(rt, row, &mut spawner, binder)
}
