//! What a script sets, and the steps of its connection.
use crate::scripts::connection_of;
use crate::shown::{hold, holds};
use script::{
    Coming, Connection, FinalStatus, Handler, Line, PlaceLine, Reading, Script, Settings,
    read_line, read_script,
};
use server_run::{MemoryLink, ReadStep, WriteStep};
use service_core::{Link, Peer};
use std::alloc::{AllocError, Global};
use std::test::Fail;

// What a script sets: bytes of a head, of a body and of a piece, and its handler.
#[derive(Clone, Copy)]
struct Wanted {
    head: usize,
    body: usize,
    cut: usize,
    handler: Handler,
}

fn has(settings: &Settings, wanted: Wanted) -> bool {
    settings.limits.head() == wanted.head
        && settings.limits.body() == wanted.body
        && settings.cut == wanted.cut
        && settings.handler == wanted.handler
}

fn is_set(reading: &Reading, wanted: Wanted) -> bool {
    match reading {
        Reading::Good(script) => has(&script.settings, wanted),
        Reading::BadLine(_) => false,
    }
}

// Whether a script sets this.
fn sets(alloc: Global, text: &str, wanted: Wanted) -> Result<bool, AllocError> {
    match read_script(alloc, text.as_bytes()) {
        Ok(reading) => {
            let shown = is_set(&reading, wanted);
            drop(reading);
            Ok(shown)
        }
        Err(error) => Err(error),
    }
}

fn by(head: usize, body: usize, cut: usize, handler: Handler) -> Wanted {
    Wanted {
        head,
        body,
        cut,
        handler,
    }
}

// The handler that answers with this status, or the first handler where it is no final one.
fn status(code: u16) -> Handler {
    match FinalStatus::new(code) {
        Some(status) => Handler::Status(status),
        None => Handler::Hello,
    }
}

#[test]
fn a_script_sets_how_it_is_served(rt: HostRuntime) -> Result<(), Fail> {
    let alloc = rt.alloc();
    hold(
        &rt,
        &[
            sets(alloc, "", by(32_768, 1_048_576, 65_536, Handler::Hello)),
            sets(
                alloc,
                "head 1\nbody 16777216\ncut 7\nhandler echo\nhead 65535",
                by(65_535, 16_777_216, 7, Handler::Echo),
            ),
            sets(
                alloc,
                "handler fail\nhandler status 999\nlistener",
                by(32_768, 1_048_576, 65_536, status(999)),
            ),
        ],
    )
}

fn is_server(reading: &Reading, workers: usize, ring: usize, retry: u64, limit: u64) -> bool {
    match reading {
        Reading::Good(script) => {
            script.settings.workers == workers
                && script.settings.ring == ring
                && script.settings.retry_limit == retry
                && script.settings.limit == limit
        }
        Reading::BadLine(_) => false,
    }
}

// Whether a script sets the server so: its workers, their rings, failures in a row, and connections at once.
fn sets_server(
    alloc: Global,
    text: &str,
    wanted: (usize, usize, u64, u64),
) -> Result<bool, AllocError> {
    match read_script(alloc, text.as_bytes()) {
        Ok(reading) => {
            let shown = is_server(&reading, wanted.0, wanted.1, wanted.2, wanted.3);
            drop(reading);
            Ok(shown)
        }
        Err(error) => Err(error),
    }
}

#[test]
fn a_script_sets_the_server(rt: HostRuntime) -> Result<(), Fail> {
    let alloc = rt.alloc();
    hold(
        &rt,
        &[
            sets_server(alloc, "", (2, 128, 8, 25_600)),
            sets_server(
                alloc,
                "workers 512\nring 4096\nretry 1000\nlimit 1000000",
                (512, 4096, 1000, 1_000_000),
            ),
            sets_server(
                alloc,
                "workers 9\nworkers 1\nring 1\nretry 1\nlimit 1\nlistener",
                (1, 1, 1, 1),
            ),
        ],
    )
}

fn is_code(code: u16, wanted: Option<u16>) -> bool {
    match FinalStatus::new(code) {
        Some(status) => wanted == Some(status.code()),
        None => wanted.is_none(),
    }
}

#[test]
fn a_final_status_is_from_200_to_999(rt: HostRuntime) -> Result<(), Fail> {
    hold(
        &rt,
        &[
            Ok(is_code(199, None)),
            Ok(is_code(200, Some(200))),
            Ok(is_code(999, Some(999))),
            Ok(is_code(1000, None)),
        ],
    )
}

fn is_bad(reading: &Reading, number: usize) -> bool {
    match reading {
        Reading::Good(_) => false,
        Reading::BadLine(first) => *first == number,
    }
}

// Whether this line is the first bad one of the script.
fn stops(alloc: Global, text: &str, number: usize) -> Result<bool, AllocError> {
    match read_script(alloc, text.as_bytes()) {
        Ok(reading) => {
            let shown = is_bad(&reading, number);
            drop(reading);
            Ok(shown)
        }
        Err(error) => Err(error),
    }
}

// Whether each script is bad in its first line.
fn all_stop(alloc: Global, texts: &[&str]) -> Result<bool, AllocError> {
    for text in texts {
        if !stops(alloc, text, 1)? {
            return Ok(false);
        }
    }
    Ok(true)
}

const OUT_OF_RANGE: [&str; 21] = [
    "workers 0",
    "workers 513",
    "ring 0",
    "ring 4097",
    "retry 0",
    "retry 1001",
    "limit 0",
    "limit 1000001",
    "late",
    "head 0",
    "head 65536",
    "head 01",
    "head +1",
    "head",
    "body 0",
    "body 16777217",
    "cut 0",
    "cut 65537",
    "handler status 199",
    "handler status 1000",
    "wait",
];

#[test]
fn a_number_out_of_its_range_is_a_bad_line(rt: HostRuntime) -> Result<(), Fail> {
    let alloc = rt.alloc();
    hold(
        &rt,
        &[
            all_stop(alloc, &OUT_OF_RANGE),
            stops(alloc, "listener\nhead 1", 2),
            stops(alloc, "listener\ntake 1", 2),
            stops(alloc, "listener\nconn local\nlistener\ngive a", 4),
            stops(alloc, "listener\nconn local\ntake 0", 3),
            stops(alloc, "listener\nconn local\nwait 1", 3),
        ],
    )
}

// Whether the step hands over these bytes, or is pending where none are told.
fn is_step(step: &ReadStep, wanted: Option<&[u8]>) -> bool {
    match step {
        ReadStep::Give(bytes) => wanted == Some(bytes.as_bytes()),
        ReadStep::NotYet => wanted.is_none(),
        ReadStep::Fail => false,
        ReadStep::Never => false,
    }
}

fn are_steps(steps: &[ReadStep], wanted: &[Option<&[u8]>]) -> bool {
    for (step, wanted) in steps.iter().zip(wanted) {
        if !is_step(step, *wanted) {
            return false;
        }
    }
    steps.len() == wanted.len()
}

const STEPS: &[u8] = b"cut 2\nlistener\nconn local\ngive abc\nwait\ntake 3\ngive d\nwrite-wait";

fn goes_by(connection: &Connection) -> bool {
    are_steps(
        connection.reads(),
        &[Some(b"ab"), Some(b"c"), None, Some(b"d")],
    ) && connection.writes() == [WriteStep::Take(3), WriteStep::NotYet].as_slice()
}

fn has_steps(reading: &Reading) -> bool {
    match reading {
        Reading::Good(script) => match connection_of(script) {
            Some(connection) => goes_by(connection),
            None => false,
        },
        Reading::BadLine(_) => false,
    }
}

fn reads_steps(alloc: Global) -> Result<bool, AllocError> {
    match read_script(alloc, STEPS) {
        Ok(reading) => {
            let shown = has_steps(&reading);
            drop(reading);
            Ok(shown)
        }
        Err(error) => Err(error),
    }
}

#[test]
fn a_connection_goes_by_its_lines(rt: HostRuntime) -> Result<(), Fail> {
    holds(&rt, reads_steps(rt.alloc()))
}

const LISTENERS: &[u8] =
    b"listener\nlate\nconn local\nskip\ngive a\nconn local\nfail-listener\nlistener\nlistener\nconn local";

fn comes(script: &Script) -> bool {
    match script.listeners.as_slice() {
        [first, second, third] => {
            first.comings()
                == [
                    Coming::Late,
                    Coming::Connection,
                    Coming::Skip,
                    Coming::Connection,
                    Coming::Failure,
                ]
                .as_slice()
                && first.connections().len() == 2
                && second.comings().is_empty()
                && third.comings() == [Coming::Connection].as_slice()
        }
        _ => false,
    }
}

fn has_listeners(reading: &Reading) -> bool {
    match reading {
        Reading::Good(script) => comes(script),
        Reading::BadLine(_) => false,
    }
}

fn reads_listeners(alloc: Global) -> Result<bool, AllocError> {
    match read_script(alloc, LISTENERS) {
        Ok(reading) => {
            let shown = has_listeners(&reading);
            drop(reading);
            Ok(shown)
        }
        Err(error) => Err(error),
    }
}

#[test]
fn listeners_answer_what_their_lines_say(rt: HostRuntime) -> Result<(), Fail> {
    holds(&rt, reads_listeners(rt.alloc()))
}

// Whether the line behind so many listeners is the first bad one, where it is a listener's.
fn one_more_than(alloc: Global, most: usize) -> Result<bool, AllocError> {
    let mut text = String::new(alloc);
    for _ in 0..most {
        text.push_str("listener\n")?;
    }
    let good = stops(alloc, &text, 1);
    text.push_str("listener\n")?;
    let bad = stops(alloc, &text, most.saturating_add(1));
    drop(text);
    Ok(!good? && bad?)
}

#[test]
fn a_script_has_64_listeners_at_the_most(rt: HostRuntime) -> Result<(), Fail> {
    holds(&rt, one_more_than(rt.alloc(), 64))
}

fn is_wait(said: &Option<Line>) -> bool {
    match said {
        Some(Line::Place(PlaceLine::Wait)) => true,
        _ => false,
    }
}

fn says_wait(alloc: Global, line: &[u8]) -> Result<bool, AllocError> {
    match read_line(alloc, line) {
        Ok(said) => {
            let shown = is_wait(&said);
            drop(said);
            Ok(shown)
        }
        Err(error) => Err(error),
    }
}

#[test]
fn a_line_is_read_alone(rt: HostRuntime) -> Result<(), Fail> {
    holds(&rt, says_wait(rt.alloc(), b"wait"))
}

// Whether a script that is made line by line has a listener in the end.
fn listens(alloc: Global) -> Result<bool, AllocError> {
    let mut script = Script::new(alloc);
    let taken = script.push(alloc, Line::Place(PlaceLine::Listener));
    let listening = !script.listeners.is_empty();
    drop(script);
    match taken {
        Ok(taken) => Ok(taken && listening),
        Err(error) => Err(error),
    }
}

#[test]
fn a_script_takes_a_line(rt: HostRuntime) -> Result<(), Fail> {
    holds(&rt, listens(rt.alloc()))
}

fn is_new(link: &MemoryLink) -> bool {
    link.name() == 5 && link.peer() == Peer::Local && link.written().is_empty()
}

#[test]
fn a_connection_becomes_a_link(rt: HostRuntime) -> Result<(), Fail> {
    let alloc = rt.alloc();
    let link = Connection::new(alloc, Peer::Local).into_link(alloc, 5);
    let shown = is_new(&link);
    drop(link);
    holds(&rt, Ok(shown))
}
