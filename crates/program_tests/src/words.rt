//! The words of the command line, and peers and short summaries in words.
use crate::shown::{hold, not};
use report::{peer_text, short_summary_text};
use server_program::{Form, form_of};
use server_run::End;
use service_core::{Octets, Peer};
use std::alloc::{AllocError, Global};
use std::test::Fail;

// The words of a command line.
fn said(alloc: Global, words: &[&str]) -> Result<Vec<Octets>, AllocError> {
    let mut list = Vec::new(alloc);
    for word in words {
        list.push(Octets::of(alloc, word.as_bytes())?)?;
    }
    Ok(list)
}

// Whether these words ask for this.
fn ask_for(alloc: Global, words: &[&str], wanted: Option<Form>) -> Result<bool, AllocError> {
    match said(alloc, words) {
        Ok(words) => {
            let shown = form_of(&words) == wanted;
            drop(words);
            Ok(shown)
        }
        Err(error) => Err(error),
    }
}

#[test]
fn only_the_one_word_replay_is_replay(rt: HostRuntime) -> Result<(), Fail> {
    let alloc = rt.alloc();
    hold(
        &rt,
        &[
            ask_for(alloc, &[], None),
            ask_for(alloc, &["replay"], Some(Form::Replay)),
            ask_for(alloc, &["replay", ""], None),
            ask_for(alloc, &[""], None),
        ],
    )
}

fn made(count: usize, seed: u32) -> Option<Form> {
    Some(Form::Generate { count, seed })
}

#[test]
fn generate_has_two_numbers_in_their_ranges(rt: HostRuntime) -> Result<(), Fail> {
    let alloc = rt.alloc();
    hold(
        &rt,
        &[
            ask_for(alloc, &["generate", "1", "0"], made(1, 0)),
            ask_for(
                alloc,
                &["generate", "100000", "2147483647"],
                made(100_000, 2_147_483_647),
            ),
            ask_for(alloc, &["generate", "0", "1"], None),
            ask_for(alloc, &["generate", "100001", "1"], None),
            ask_for(alloc, &["generate", "1", "2147483648"], None),
        ],
    )
}

fn heard(limit: u64) -> Option<Form> {
    Some(Form::Listen { limit })
}

#[test]
fn listen_has_an_address_and_a_number_in_its_range(rt: HostRuntime) -> Result<(), Fail> {
    let alloc = rt.alloc();
    hold(
        &rt,
        &[
            ask_for(alloc, &["listen", "127.0.0.1:8080", "1"], heard(1)),
            ask_for(alloc, &["listen", "", "1000000"], heard(1_000_000)),
            ask_for(alloc, &["listen", "127.0.0.1:8080", "0"], None),
            ask_for(alloc, &["listen", "127.0.0.1:8080", "1000001"], None),
            ask_for(alloc, &["listen", "127.0.0.1:8080"], None),
            ask_for(alloc, &["listen", "127.0.0.1:80", "01"], None),
        ],
    )
}

#[test]
fn numbers_of_other_forms_are_none(rt: HostRuntime) -> Result<(), Fail> {
    let alloc = rt.alloc();
    hold(
        &rt,
        &[
            ask_for(alloc, &["generate", "01", "1"], None),
            ask_for(alloc, &["generate", "1", "-1"], None),
            ask_for(alloc, &["generate", "1", ""], None),
            ask_for(alloc, &["generate", "1"], None),
            ask_for(alloc, &["generate", "1", "1", "1"], None),
            ask_for(alloc, &["replay", "1", "1"], None),
        ],
    )
}

// Whether a peer in words is this text.
fn is_told(alloc: Global, peer: Peer, text: &[u8]) -> Result<bool, AllocError> {
    match peer_text(alloc, peer) {
        Ok(told) => {
            let shown = told.as_bytes() == text;
            drop(told);
            Ok(shown)
        }
        Err(error) => Err(error),
    }
}

#[test]
fn a_peer_is_told_in_words(rt: HostRuntime) -> Result<(), Fail> {
    let alloc = rt.alloc();
    let v4 = Peer::V4 {
        host: 0x0a00_00ff,
        port: 5000,
    };
    let v6 = Peer::V6 {
        host: 0x2001_0db8_0000_0000_0000_0000_00af_fffe,
        port: 80,
    };
    hold(
        &rt,
        &[
            is_told(alloc, v4, b"10.0.0.255:5000"),
            is_told(alloc, v6, b"[2001:0db8:0000:0000:0000:0000:00af:fffe]:80"),
            is_told(alloc, Peer::Local, b"local"),
            is_told(alloc, Peer::Unknown, b"unknown"),
        ],
    )
}

// Whether the short summary of these numbers is this text.
fn is_summed_up(
    alloc: Global,
    numbers: (u64, u64),
    end: End,
    text: &[u8],
) -> Result<bool, AllocError> {
    match short_summary_text(alloc, numbers.0, numbers.1, end) {
        Ok(told) => {
            let shown = told.as_bytes() == text;
            drop(told);
            Ok(shown)
        }
        Err(error) => Err(error),
    }
}

#[test]
fn a_short_summary_has_three_lines(rt: HostRuntime) -> Result<(), Fail> {
    let alloc = rt.alloc();
    let (some, few, none) = (
        b"connections 2\nserved 1\nend drained\n".as_slice(),
        b"connections 3\nserved 2\nend no-workers\n".as_slice(),
        b"connections 0\nserved 0\nend memory\n".as_slice(),
    );
    hold(
        &rt,
        &[
            is_summed_up(alloc, (2, 1), End::Drained, some),
            is_summed_up(alloc, (3, 2), End::NoWorkers, few),
            is_summed_up(alloc, (0, 0), End::Memory, none),
        ],
    )
}
