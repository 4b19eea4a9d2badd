//! Runs of the program by words that are no form, of each call of a source or a sink that fails, and of starts that are
//! refused.
use crate::shown::{hold, holds};
use server_bind::MemoryBinder;
use server_edge::ScriptSpawner;
use server_jobs::StepClock;
use server_program::{
    MemorySink, MemorySource, a_good_script_is_served, connections_that_are_made_are_served,
    connections_that_come_are_served, run,
};
use server_run::Host;
use service_core::Octets;
use std::alloc::{AllocError, AllocGlobal, Global};
use std::test::Fail;

const NEVER: u64 = u64::MAX;

// The numbers of the read and of the write that fail and of the start that is refused, and how many bytes the sink has
// room for.
#[derive(Clone, Copy)]
struct Faults {
    read: u64,
    write: u64,
    start: u64,
    room: usize,
}

// No call fails.
fn none() -> Faults {
    fails(NEVER, NEVER)
}

// This read and this write fail.
fn fails(read: u64, write: u64) -> Faults {
    Faults {
        read,
        write,
        start: NEVER,
        room: 4096,
    }
}

// The words of a command line.
fn said(alloc: Global, words: &[&str]) -> Result<Vec<Octets>, AllocError> {
    let mut list = Vec::new(alloc);
    for word in words {
        list.push(Octets::of(alloc, word.as_bytes())?)?;
    }
    Ok(list)
}

fn failing_source(alloc: Global, script: Octets, read: u64) -> Result<MemorySource, AllocError> {
    match vec![in alloc; read] {
        Ok(fails) => Ok(MemorySource::new(script, fails)),
        Err(_) => Err(AllocError),
    }
}

/// A source of these bytes, whose read of this number fails.
pub(crate) fn source_of(
    alloc: Global,
    script: &[u8],
    read: u64,
) -> Result<MemorySource, AllocError> {
    match Octets::of(alloc, script) {
        Ok(script) => failing_source(alloc, script, read),
        Err(error) => Err(error),
    }
}

/// A sink with so much room, whose write of this number fails.
pub(crate) fn sink_of(alloc: Global, room: usize, write: u64) -> Result<MemorySink, AllocError> {
    match vec![in alloc; write] {
        Ok(fails) => MemorySink::new(alloc, room, fails),
        Err(_) => Err(AllocError),
    }
}

// A spawner whose start of this number is refused.
fn spawner_of(alloc: Global, start: u64) -> Result<ScriptSpawner, AllocError> {
    match vec![in alloc; start] {
        Ok(refused) => ScriptSpawner::new(alloc, refused),
        Err(_) => Err(AllocError),
    }
}

/// What a run has: the words of its command line, its source, its sink and its spawner.
#[derive(Drop)]
struct Parts {
    said: Vec<Octets>,
    source: MemorySource,
    sink: MemorySink,
    spawner: ScriptSpawner,
}

/// A run, and how it ends: its status, and what the sink got where that is told.
#[derive(Clone, Copy)]
struct Row<'a> {
    words: &'a [&'a str],
    script: &'a [u8],
    faults: Faults,
    status: u8,
    got: Option<&'a str>,
}

fn parts_of(alloc: Global, row: Row) -> Result<Parts, AllocError> {
    Ok(Parts {
        said: said(alloc, row.words)?,
        source: source_of(alloc, row.script, row.faults.read)?,
        sink: sink_of(alloc, row.faults.room, row.faults.write)?,
        spawner: spawner_of(alloc, row.faults.start)?,
    })
}

fn is_got(got: &[u8], wanted: Option<&str>) -> bool {
    match wanted {
        Some(text) => got == text.as_bytes(),
        None => true,
    }
}

// Whether the text, or a report in it, tells that memory ran out.
fn tells_memory(got: &[u8]) -> bool {
    got.starts_with(b"out of mem".as_slice())
        || got.starts_with(b"0.0 memory ".as_slice())
        || got.ends_with(b"end memory\n".as_slice())
        || sums_up_none(got)
}

// Whether a summary of one connection tells that it wasn't served.
fn sums_up_none(got: &[u8]) -> bool {
    got.starts_with(b"connections 1\nrequests ".as_slice())
        && got
            .windows(10)
            .any(|part| part == b"\nserved 0\n".as_slice())
}

// Whether a thread found no memory, in a run whose starts are not to be refused.
fn lacks_a_worker(row: Row, status: u8, got: &[u8]) -> bool {
    row.status != 8 && (status == 8 || got.starts_with(b"no worker ".as_slice()))
}

// Whether a run with this status ends as told, where it had enough memory.
fn is_end(row: Row, status: u8, got: &[u8]) -> Result<bool, AllocError> {
    if status == 7 || tells_memory(got) || lacks_a_worker(row, status, got) {
        return Err(AllocError);
    }
    Ok(status == row.status && is_got(got, row.got))
}

fn status_of<Ho: Host + 'static>(rt: &Ho, alloc: Global, parts: &mut Parts) -> u8 {
    run(
        rt,
        alloc,
        &parts.said,
        &mut parts.source,
        &mut parts.sink,
        &mut StepClock::new(0, 1),
        &mut parts.spawner,
        &mut MemoryBinder::new(alloc, Vec::new(alloc)),
    )
}

// Whether the run ends as told.
fn ends<Ho: Host + AllocGlobal + 'static>(rt: &Ho, row: Row) -> Result<bool, AllocError> {
    let alloc = rt.alloc();
    match parts_of(alloc, row) {
        Ok(mut parts) => {
            let status = status_of(rt, alloc, &mut parts);
            let shown = is_end(row, status, parts.sink.got());
            drop(parts);
            shown
        }
        Err(error) => Err(error),
    }
}

// Whether each run ends as told.
fn all_end<Ho: Host + AllocGlobal + 'static>(rt: &Ho, rows: &[Row]) -> Result<bool, AllocError> {
    for row in rows {
        if !ends(rt, *row)? {
            return Ok(false);
        }
    }
    Ok(true)
}

// The run of a listener alone by these words, and how it ends.
fn of_listener<'a>(words: &'a [&'a str], faults: Faults, wanted: (u8, &'a str)) -> Row<'a> {
    Row {
        words,
        script: b"listener",
        faults,
        status: wanted.0,
        got: Some(wanted.1),
    }
}

const USAGE: &str = "usage: replay | listen ADDR N | generate N K\n";

fn of_no_form<'a>(words: &'a [&'a str]) -> Row<'a> {
    of_listener(words, none(), (2, USAGE))
}

#[test]
fn words_that_are_no_form_are_answered_with_the_usage(rt: HostRuntime) -> Result<(), Fail> {
    hold(
        &rt,
        &[
            ends(&rt, of_no_form(&["replay", "now"])),
            ends(&rt, of_no_form(&[])),
            ends(&rt, of_no_form(&["--help"])),
            ends(&rt, of_no_form(&["generate", "0", "1"])),
        ],
    )
}

fn of_replay<'a>(faults: Faults, wanted: (u8, &'a str)) -> Row<'a> {
    of_listener(&["replay"], faults, wanted)
}

#[test]
fn a_read_that_fails_and_a_write_that_fails_are_told_apart(rt: HostRuntime) -> Result<(), Fail> {
    hold(
        &rt,
        &[
            ends(&rt, of_replay(fails(1, NEVER), (5, "read failed\n"))),
            ends(&rt, of_replay(fails(NEVER, 0), (6, ""))),
        ],
    )
}

#[test]
fn a_sink_with_too_little_room_gets_the_front_of_the_text(rt: HostRuntime) -> Result<(), Fail> {
    let ten = Faults {
        read: NEVER,
        write: NEVER,
        start: NEVER,
        room: 10,
    };
    holds(&rt, ends(&rt, of_replay(ten, (6, "listener 0"))))
}

const NO_WORKER: &str = "no worker could be started\n";

// The run whose start of this number is refused, and how it ends.
fn of_start<'a>(start: u64, wanted: (u8, &'a str)) -> Row<'a> {
    let faults = Faults {
        read: NEVER,
        write: NEVER,
        start,
        room: 4096,
    };
    of_replay(faults, wanted)
}

#[test]
fn the_law_of_good_scripts_can_be_called() {
    a_good_script_is_served::<MemorySource, MemorySink, ScriptSpawner>();
}

#[test]
fn a_start_that_is_refused_is_told(rt: HostRuntime) -> Result<(), Fail> {
    hold(
        &rt,
        &[
            ends(&rt, of_start(0, (8, NO_WORKER))),
            ends(&rt, of_start(1, (8, NO_WORKER))),
            ends(&rt, of_start(2, (0, "listener 0 ended\nend drained\n"))),
        ],
    )
}

const GET: &[u8] =
    b"listener\nconn local\ngive \\x47\\x45\\x54\\x20\\x2f\\x20\\x48\\x54\\x54\\x50\\x2f\\x31\\x2e\\x31\\x0d\\x0a\\x48\\x6f\\x73\\x74\\x3a\\x20\\x61\\x0d\\x0a\\x0d\\x0a";

// The run of a GET whose source fails at this call, and whose sink fails at that one, and its status.
fn of_get(read: u64, write: u64, status: u8) -> Row<'static> {
    Row {
        words: &["replay"],
        script: GET,
        faults: fails(read, write),
        status,
        got: None,
    }
}

// Each of six reads fails. One read gives the script, and one more finds its end.
fn failing_reads() -> [Row<'static>; 6] {
    [
        of_get(0, NEVER, 5),
        of_get(1, NEVER, 5),
        of_get(2, NEVER, 0),
        of_get(3, NEVER, 0),
        of_get(4, NEVER, 0),
        of_get(5, NEVER, 0),
    ]
}

#[test]
fn each_read_that_fails_is_told(rt: HostRuntime) -> Result<(), Fail> {
    holds(&rt, all_end(&rt, &failing_reads()))
}

// Each of four writes fails, where no read fails and where the first one does. One write takes the whole report, and one
// the text of a read that failed.
fn failing_writes() -> [Row<'static>; 8] {
    [
        of_get(NEVER, 0, 6),
        of_get(0, 0, 6),
        of_get(NEVER, 1, 0),
        of_get(0, 1, 5),
        of_get(NEVER, 2, 0),
        of_get(0, 2, 5),
        of_get(NEVER, 3, 0),
        of_get(0, 3, 5),
    ]
}

#[test]
fn each_write_that_fails_is_told(rt: HostRuntime) -> Result<(), Fail> {
    holds(&rt, all_end(&rt, &failing_writes()))
}

// The run of a script, and the report that it writes.
fn of_script<'a>(script: &'a [u8], report: &'a str) -> Row<'a> {
    Row {
        words: &["replay"],
        script,
        faults: none(),
        status: 0,
        got: Some(report),
    }
}

const ECHO: &[u8] =
    b"no-vary\nhandler echo\nlistener\nconn local\ngive POST /a HTTP/1.1\\r\\ncontent-length: 2\\r\\n\\r\\nhi";

// The same request byte by byte, with reads and writes that are pending, and the answer a few bytes at a time.
const SLOW_ECHO: &[u8] =
    b"cut 1\nno-vary\nhandler echo\nlistener\nconn local\nwait\ngive POST /a HTTP/1.1\\r\\ncontent-length: 2\\r\\n\\r\\n\nwait\ngive hi\nwrite-wait\ntake 3\nwrite-wait\ntake 1";

const ECHOED: &str =
    "0.0 served \"HTTP/1.1 200 OK\\r\\ncontent-length: 10\\r\\n\\r\\nPOST /a\\nhi\"\nlistener 0 ended\nend drained\n";

#[test]
fn a_request_is_echoed_however_it_comes(rt: HostRuntime) -> Result<(), Fail> {
    hold(
        &rt,
        &[
            ends(&rt, of_script(ECHO, ECHOED)),
            ends(&rt, of_script(SLOW_ECHO, ECHOED)),
        ],
    )
}

const NOT_FOUND: &[u8] =
    b"handler status 404\nno-vary\nlistener\nconn local\ngive GET / HTTP/1.1\\r\\n\\r\\n";

const NOT_FOUND_TOLD: &str =
    "0.0 served \"HTTP/1.1 404 Not Found\\r\\ncontent-length: 0\\r\\n\\r\\n\"\nlistener 0 ended\nend drained\n";

#[test]
fn a_status_is_answered_alone(rt: HostRuntime) -> Result<(), Fail> {
    holds(&rt, ends(&rt, of_script(NOT_FOUND, NOT_FOUND_TOLD)))
}

// The run that makes one connection from this seed, whose source fails at once, since nothing is read.
fn of_made<'a>(words: &'a [&'a str], write: u64, start: u64, wanted: (u8, &'a str)) -> Row<'a> {
    let faults = Faults {
        read: 0,
        write,
        start,
        room: 4096,
    };
    of_listener(words, faults, wanted)
}

const FROM_ONE: &str = "connections 1\nrequests 3\nserved 1\nanswer-bytes 614\nend drained\n";

const FROM_TWO: &str = "connections 1\nrequests 1\nserved 1\nanswer-bytes 257\nend drained\n";

#[test]
fn connections_that_are_made_are_served_and_summed_up(rt: HostRuntime) -> Result<(), Fail> {
    let (one, two) = (["generate", "1", "1"], ["generate", "1", "2"]);
    hold(
        &rt,
        &[
            ends(&rt, of_made(&one, NEVER, NEVER, (0, FROM_ONE))),
            ends(&rt, of_made(&two, NEVER, NEVER, (0, FROM_TWO))),
        ],
    )
}

#[test]
fn a_summary_that_cannot_be_written_is_told_and_so_is_a_worker_that_cannot_start(
    rt: HostRuntime,
) -> Result<(), Fail> {
    let one = ["generate", "1", "1"];
    hold(
        &rt,
        &[
            ends(&rt, of_made(&one, 0, NEVER, (6, ""))),
            ends(&rt, of_made(&one, NEVER, 3, (8, NO_WORKER))),
            ends(&rt, of_made(&one, NEVER, 4, (0, FROM_ONE))),
        ],
    )
}

#[test]
fn the_law_of_connections_that_are_made_can_be_called() {
    connections_that_are_made_are_served::<MemorySource, MemorySink, ScriptSpawner, MemoryBinder>();
}

#[test]
fn the_law_of_connections_that_come_can_be_called() {
    connections_that_come_are_served::<MemorySource, MemorySink, ScriptSpawner, MemoryBinder>();
}
