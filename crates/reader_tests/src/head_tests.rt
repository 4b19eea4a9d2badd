//! What a head asks of its connection.
use crate::shown::{hold, holds};
use http1_head::{
    BodyFraming, NextHead, ReadHead, empty_line, empty_lines, head_at_front, head_size_from,
    next_head,
};
use http1_plain::{Limits, Request};
use service_core::{Octets, Peer};
use std::alloc::{AllocError, Global};
use std::test::Fail;

// What a head asks: whether its connection closes, and whether where it may not be kept alive; whether it waits for
// `100 Continue`; whether it asks for another protocol.
fn asks_of(head: &ReadHead) -> (bool, bool, bool, bool) {
    (
        head.closes(true),
        head.closes(false),
        head.expects(),
        head.upgrades(),
    )
}

fn is_asking(next: &NextHead, wanted: (bool, bool, bool, bool)) -> bool {
    match next {
        NextHead::Found(head, _, _) => asks_of(head) == wanted,
        NextHead::Nothing | NextHead::Refused(_) => false,
    }
}

fn head_asks(
    alloc: Global,
    text: &str,
    wanted: (bool, bool, bool, bool),
) -> Result<bool, AllocError> {
    match next_head(alloc, Limits::default(), text.as_bytes()) {
        Ok(next) => {
            let shown = is_asking(&next, wanted);
            drop(next);
            Ok(shown)
        }
        Err(error) => Err(error),
    }
}

fn all_ask(
    alloc: Global,
    texts: &[&str],
    wanted: (bool, bool, bool, bool),
) -> Result<bool, AllocError> {
    for text in texts {
        if !head_asks(alloc, text, wanted)? {
            return Ok(false);
        }
    }
    Ok(true)
}

#[test]
fn a_head_says_whether_its_connection_closes(rt: HostRuntime) -> Result<(), Fail> {
    let closing = [
        "GET / HTTP/1.1\r\nConnection: close\r\n\r\n",
        "GET / HTTP/1.1\r\nConnection: keep-alive, Close\r\n\r\n",
        "GET / HTTP/1.1\r\nConnection: x\r\nConnection: \tCLOSE \r\n\r\n",
        "GET / HTTP/1.0\r\n\r\n",
        "GET / HTTP/1.0\r\nConnection: close, keep-alive\r\n\r\n",
    ];
    let open = [
        "GET / HTTP/1.1\r\n\r\n",
        "GET / HTTP/1.1\r\nConnection: closed\r\n\r\n",
        "GET / HTTP/1.1\r\nConnection: clo se\r\n\r\n",
        "GET / HTTP/1.0\r\nConnection: Keep-Alive\r\n\r\n",
    ];
    holds(
        &rt,
        all_ask(rt.alloc(), &closing, (true, true, false, false)),
    )?;
    holds(&rt, all_ask(rt.alloc(), &open, (false, true, false, false)))
}

#[test]
fn a_head_says_whether_it_waits_for_continue(rt: HostRuntime) -> Result<(), Fail> {
    let waiting = [
        "POST / HTTP/1.1\r\nExpect: 100-continue\r\n\r\n",
        "POST / HTTP/1.1\r\nExpect: x\r\nExpect: 100-Continue\r\n\r\n",
    ];
    let others = [
        "POST / HTTP/1.0\r\nConnection: keep-alive\r\nExpect: 100-continue\r\n\r\n",
        "POST / HTTP/1.1\r\nExpect: 100-continue, x\r\n\r\n",
        "POST / HTTP/1.1\r\n\r\n",
    ];
    holds(
        &rt,
        all_ask(rt.alloc(), &waiting, (false, true, true, false)),
    )?;
    holds(
        &rt,
        all_ask(rt.alloc(), &others, (false, true, false, false)),
    )
}

#[test]
fn a_head_says_whether_it_upgrades(rt: HostRuntime) -> Result<(), Fail> {
    let texts = [
        "GET / HTTP/1.1\r\nConnection: Upgrade\r\n\r\n",
        "POST / HTTP/1.0\r\nConnection: keep-alive,upgrade\r\nUpgrade: x\r\n\r\n",
    ];
    holds(&rt, all_ask(rt.alloc(), &texts, (false, true, false, true)))
}

// Whether a head that is made of the one at the front asks the same.
fn made_asks(next: NextHead, wanted: (bool, bool, bool, bool)) -> bool {
    match next {
        NextHead::Found(head, _, _) => {
            let made = ReadHead::of(head.into_head());
            let shown = asks_of(&made) == wanted;
            drop(made);
            shown
        }
        NextHead::Nothing | NextHead::Refused(_) => false,
    }
}

fn made_head_asks(
    alloc: Global,
    text: &str,
    wanted: (bool, bool, bool, bool),
) -> Result<bool, AllocError> {
    match next_head(alloc, Limits::default(), text.as_bytes()) {
        Ok(next) => Ok(made_asks(next, wanted)),
        Err(error) => Err(error),
    }
}

#[test]
fn options_of_several_fields_are_joined(rt: HostRuntime) -> Result<(), Fail> {
    let text =
        "POST / HTTP/1.1\r\nConnection: x, UPGRADE\r\nContent-Length: 0\r\nExpect: 100-continue\r\nConnection: close,y\r\n\r\n";
    holds(&rt, head_asks(rt.alloc(), text, (true, true, true, true)))
}

#[test]
fn a_head_that_is_made_asks_the_same(rt: HostRuntime) -> Result<(), Fail> {
    let text = "POST / HTTP/1.0\r\nConnection: keep-alive, upgrade\r\nExpect: 100-continue\r\n\r\n";
    holds(
        &rt,
        made_head_asks(rt.alloc(), text, (false, true, false, true)),
    )
}

fn framed_by(next: &NextHead, wanted: BodyFraming) -> bool {
    match next {
        NextHead::Found(_, body, _) => *body == wanted,
        NextHead::Nothing | NextHead::Refused(_) => false,
    }
}

fn is_framed(alloc: Global, text: &str, wanted: BodyFraming) -> Result<bool, AllocError> {
    match next_head(alloc, Limits::default(), text.as_bytes()) {
        Ok(next) => {
            let shown = framed_by(&next, wanted);
            drop(next);
            Ok(shown)
        }
        Err(error) => Err(error),
    }
}

#[test]
fn a_head_tells_how_its_body_is_framed(rt: HostRuntime) -> Result<(), Fail> {
    let alloc = rt.alloc();
    hold(
        &rt,
        &[
            is_framed(alloc, "GET / HTTP/1.1\r\n\r\n", BodyFraming::Sized(0)),
            is_framed(
                alloc,
                "P / HTTP/1.1\r\nContent-Length: 12\r\n\r\n",
                BodyFraming::Sized(12),
            ),
            is_framed(
                alloc,
                "P / HTTP/1.1\r\nTransfer-Encoding: chunked\r\n\r\n",
                BodyFraming::Chunked,
            ),
        ],
    )
}

fn sizes_are(text: &[u8]) -> bool {
    match head_size_from(text, 0) {
        Some(size) => size.len == 18 && size.lines == 2,
        None => false,
    }
}

#[test]
fn lines_and_heads_end(rt: HostRuntime) -> Result<(), Fail> {
    let lines = empty_line(b"\r\nx") == Some(2)
        && empty_line(b"\n") == Some(1)
        && empty_line(b"\r").is_none();
    holds(&rt, Ok(lines && empty_lines(b"\r\n\n\rx") == 3))?;
    holds(&rt, Ok(sizes_are(b"GET / HTTP/1.1\r\n\r\nGET")))
}

fn copied(request: &Request) -> Result<bool, AllocError> {
    let copy = request.copy()?;
    let same = copy.head.target == request.head.target
        && copy.head.method == request.head.method
        && copy.head.headers.len() == request.head.headers.len()
        && copy.body == request.body
        && copy.peer == request.peer;
    drop(copy);
    Ok(same)
}

fn is_copied(alloc: Global, next: NextHead) -> Result<bool, AllocError> {
    match next {
        NextHead::Found(head, _, _) => copied(&Request {
            head: head.into_head(),
            body: Octets::of(alloc, b"abc")?,
            peer: Peer::Local,
        }),
        NextHead::Nothing | NextHead::Refused(_) => Ok(false),
    }
}

fn copies(alloc: Global) -> Result<bool, AllocError> {
    let next = next_head(alloc, Limits::default(), b"P /x HTTP/1.0\r\nA: b\r\n\r\n")?;
    is_copied(alloc, next)
}

#[test]
fn a_copied_request_is_equal(rt: HostRuntime) -> Result<(), Fail> {
    holds(&rt, copies(rt.alloc()))
}

// Whether the head at the front is cut, where none of it was looked at before.
#[tactic(auto, using(http1_head::proofs::PassingSteps::unseen))]
fn is_cut_at_front(alloc: Global) -> Result<bool, AllocError> {
    match head_at_front(alloc, Limits::default(), b"GET / HTTP/1.1\r\n\r\nGET", 0) {
        Ok(next) => {
            let shown = framed_by(&next, BodyFraming::Sized(0));
            drop(next);
            Ok(shown)
        }
        Err(error) => Err(error),
    }
}

#[test]
fn a_head_at_the_front_is_cut(rt: HostRuntime) -> Result<(), Fail> {
    holds(&rt, is_cut_at_front(rt.alloc()))
}
