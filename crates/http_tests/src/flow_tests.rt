//! Connections that close behind each answer, that ask an expect service, and that are handed to another protocol.
ghost use Rattle.std.specs.Prelude.{◌≡◌, None, IfOk};
ghost use Rattle.std.specs.Arc.{arc_value};

use crate::echo::Echo;
use crate::porter::Porter;
use crate::serving::{MANY, OK, Wanted, is_echoed, is_served_by};
use crate::shown::holds;
use crate::switch::Switch;
use crate::test_link::Way;
use futures::test::MockTask;
use http_flow::{ExpectHandler, HttpFlow, UpgradeHandler};
use service_core::How;
use std::alloc::{AllocError, AllocGlobal, Global};
use std::process::Abort;
use std::random::RandomSource;
use std::sync::Arc;
use std::test::Fail;

/// The services of a connection.
#[derive(Clone, Copy)]
enum Kind {
    /// `Echo` alone.
    Plain,
    /// `Echo` alone, and the connection closes behind each answer.
    Closing,
    /// `Echo`, and `Porter` for what waits to come.
    Asking,
    /// `Echo`, and `Switch` for another protocol.
    Switching,
    /// The same, where `Switch` waits without end.
    Waiting,
}

// How a connection of such services ends, if it does, and what it has written.
#[derive(Clone, Copy)]
struct Row {
    kind: Kind,
    bytes: &'static [u8],
    how: Option<How>,
    text: &'static [u8],
}

// `Echo`, with `Porter` to ask.
fn asking(alloc: Global) -> Result<Arc<HttpFlow<Echo, Porter, UpgradeHandler>>, AllocError>
    ensures { IfOk result (λ flow. (arc_value flow).upgrade ≡ None) }
{
    let flow = HttpFlow {
        service: Echo { alloc },
        expect: Porter { alloc },
        upgrade: None,
    };
    Ok(Arc::new(alloc, flow)?)
}

// `Echo`, with `Switch` for another protocol.
fn switching(
    alloc: Global,
    waits: bool,
) -> Result<Arc<HttpFlow<Echo, ExpectHandler, Switch>>, AllocError> {
    let flow = HttpFlow {
        service: Echo { alloc },
        expect: ExpectHandler,
        upgrade: Some(Switch { waits }),
    };
    Ok(Arc::new(alloc, flow)?)
}

// Whether `Echo`, with `Porter` to ask, brings the link to this.
fn is_asked(
    task: &MockTask,
    alloc: Global,
    served: (&[u8], Way, usize),
    wanted: &Wanted<'_>,
) -> Result<bool, AllocError> {
    match asking(alloc) {
        Ok(flow) => is_served_by(task, &flow, true, served, wanted),
        Err(error) => Err(error),
    }
}

// The same of `Echo`, with `Switch` for another protocol.
fn is_switched(
    task: &MockTask,
    alloc: Global,
    waits: bool,
    served: (&[u8], Way, usize),
    wanted: &Wanted<'_>,
) -> Result<bool, AllocError> {
    match switching(alloc, waits) {
        Ok(flow) => is_served_by(task, &flow, true, served, wanted),
        Err(error) => Err(error),
    }
}

// Whether the connection ends as the row says, where its bytes come in such pieces.
fn ends_so(task: &MockTask, alloc: Global, row: &Row, piece: usize) -> Result<bool, AllocError> {
    let served = (row.bytes, Way::of(piece, false), MANY);
    let wanted = Wanted::Writes(row.how, row.text);
    match row.kind {
        Kind::Plain => is_echoed(task, alloc, true, served, &wanted),
        Kind::Closing => is_echoed(task, alloc, false, served, &wanted),
        Kind::Asking => is_asked(task, alloc, served, &wanted),
        Kind::Switching => is_switched(task, alloc, false, served, &wanted),
        Kind::Waiting => is_switched(task, alloc, true, served, &wanted),
    }
}

// The same of each row, whole and byte by byte.
fn all_end_so(task: &MockTask, alloc: Global, rows: &[Row]) -> Result<bool, AllocError> {
    for row in rows {
        if !ends_so(task, alloc, row, 4096)? || !ends_so(task, alloc, row, 1)? {
            return Ok(false);
        }
    }
    Ok(true)
}

// Each connection ends as its row says.
fn end_so<R: Abort + RandomSource + AllocGlobal>(rt: &R, rows: &[Row]) -> Result<(), Fail> {
    let task = MockTask::new(rt)?;
    holds(rt, all_end_so(&task, rt.alloc(), rows))
}

#[test]
fn without_keep_alive_one_request_is_answered(rt: HostRuntime) -> Result<(), Fail> {
    let rows = [Row {
        kind: Kind::Closing,
        bytes: b"GET /a HTTP/1.1\r\n\r\nGET /b HTTP/1.1\r\n\r\n",
        how: Some(How::Served),
        text: b"HTTP/1.1 200 OK\r\ncontent-length: 3\r\nconnection: close\r\n\r\n/a\n",
    }];
    end_so(&rt, &rows)
}

#[test]
fn nothing_follows_an_expectation_that_is_not_met(rt: HostRuntime) -> Result<(), Fail> {
    let rows = [Row {
        kind: Kind::Asking,
        bytes: b"POST /no HTTP/1.1\r\nExpect: 100-continue\r\n\r\nGET /a HTTP/1.1\r\n\r\n",
        how: Some(How::Served),
        text: b"HTTP/1.1 417 Expectation Failed\r\ncontent-length: 7\r\nconnection: close\r\n\r\nrefused",
    }];
    end_so(&rt, &rows)
}

#[test]
fn the_request_of_the_expect_service_is_answered(rt: HostRuntime) -> Result<(), Fail> {
    let rows = [
        Row {
            kind: Kind::Asking,
            bytes: b"PUT /a HTTP/1.1\r\nExpect: 100-continue\r\nContent-Length: 1\r\n\r\nx",
            how: Some(How::Served),
            text: b"HTTP/1.1 100 Continue\r\n\r\nHTTP/1.1 200 OK\r\ncontent-length: 6\r\n\r\n/let\nx",
        },
        Row {
            kind: Kind::Asking,
            bytes: b"PUT /a HTTP/1.1\r\nExpect: 100-continue\r\nContent-Length: 1\r\n\r\n",
            how: Some(How::Served),
            text: b"HTTP/1.1 100 Continue\r\n\r\n",
        },
        Row {
            kind: Kind::Asking,
            bytes: b"GET /a HTTP/1.1\r\n\r\n",
            how: Some(How::Served),
            text: OK,
        },
    ];
    end_so(&rt, &rows)
}

#[test]
fn head_and_close_go_by_the_head_as_it_was_read(rt: HostRuntime) -> Result<(), Fail> {
    let rows = [Row {
        kind: Kind::Asking,
        bytes: b"HEAD /a HTTP/1.1\r\nExpect: 100-continue\r\nConnection: close\r\n\r\nG",
        how: Some(How::Served),
        text: b"HTTP/1.1 100 Continue\r\n\r\nHTTP/1.1 200 OK\r\ncontent-length: 5\r\nconnection: close\r\n\r\n",
    }];
    end_so(&rt, &rows)
}

// A request, and one that asks for another protocol, with bytes of that behind it.
const UPGRADED: &[u8] =
    b"GET /a HTTP/1.1\r\n\r\nGET /b HTTP/1.1\r\nConnection: Upgrade\r\nUpgrade: x\r\n\r\nabc\r\n\r\n";

// The answer to the first, and the bytes of the other protocol.
const SWITCHED: &[u8] = b"HTTP/1.1 200 OK\r\ncontent-length: 3\r\n\r\n/a\nabc\r\n\r\n";

#[test]
fn an_upgrade_service_has_all_bytes_behind_its_head(rt: HostRuntime) -> Result<(), Fail> {
    let rows = [Row {
        kind: Kind::Switching,
        bytes: UPGRADED,
        how: Some(How::Upgraded),
        text: SWITCHED,
    }];
    end_so(&rt, &rows)
}

#[test]
fn without_an_upgrade_service_a_request_is_plain(rt: HostRuntime) -> Result<(), Fail> {
    let rows = [Row {
        kind: Kind::Plain,
        bytes: UPGRADED,
        how: Some(How::Served),
        text: b"HTTP/1.1 200 OK\r\ncontent-length: 3\r\n\r\n/a\n\
HTTP/1.1 200 OK\r\ncontent-length: 3\r\n\r\n/b\n\
HTTP/1.1 400 Bad Request\r\ncontent-length: 0\r\nconnection: close\r\n\r\n",
    }];
    end_so(&rt, &rows)
}

#[test]
fn an_upgrade_service_that_waits_hands_its_link_back(rt: HostRuntime) -> Result<(), Fail> {
    let rows = [Row {
        kind: Kind::Waiting,
        bytes: UPGRADED,
        how: None,
        text: SWITCHED,
    }];
    end_so(&rt, &rows)
}
