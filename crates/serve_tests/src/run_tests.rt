//! Runs that serve.
use crate::serving::{come_in_order, come_to};
use serve_stage::Answer::{Fail as Fails, Give, NotYet, Skip};
use serve_stage::{Answer, PLAIN, Plan};
use std::test::Fail;

#[test]
fn each_connection_is_handed_on_once(rt: HostRuntime) -> Result<(), Fail> {
    let answers: [&[Answer]; 3] = [
        &[Give(9), NotYet, Give(11), Skip],
        &[Skip, Give(18), NotYet, NotYet],
        &[NotYet, Give(13), Skip, Give(9)],
    ];
    let wanted = b"0: served 0 1 2 3 4 5 6 7 8 10 11 12 13 14 15 16 17 18 19 20 ended\n\
        1: upgraded 101 102 103 104 105 106 107 108 109 \
        110 111 112 113 114 115 116 117 118 ended\n\
        2: unread 201 202 203 204 205 206 207 208 209 210 211 212 213 \
        215 216 217 218 219 220 221 222 223 ended\n\
        entries 60, drained";
    come_to(&rt, &PLAIN.by_workers(), &answers, wanted)
}

#[test]
fn a_connection_waits_where_no_worker_has_room(rt: HostRuntime) -> Result<(), Fail> {
    let plan = Plan {
        limit: 1,
        ring: 1,
        before: 5,
        ..PLAIN
    };
    let wanted = b"0: served 0 1 2 3 4 5 6 7 8 9 10 11 12 13 14 15 16 17 18 19 20 ended\n\
        1: upgraded 100 101 102 103 104 105 106 107 108 109 \
        110 111 112 113 114 115 116 117 118 ended\n\
        entries 40, drained";
    come_to(&rt, &plan.by_workers(), &[&[Give(21)], &[Give(19)]], wanted)
}

#[test]
fn a_listener_that_fails_too_often_is_given_up(rt: HostRuntime) -> Result<(), Fail> {
    let plan = Plan {
        retry_limit: 2,
        ..PLAIN
    };
    let answers: [&[Answer]; 3] = [
        &[Fails, Fails, Give(1)],
        &[Fails, Give(1), Fails],
        &[NotYet, Give(3)],
    ];
    let wanted = b"0: failed 2\n\
        1: upgraded 101 ended\n\
        2: unread 201 202 203 ended\n\
        entries 4, drained";
    come_to(&rt, &plan.by_workers(), &answers, wanted)
}

#[test]
fn one_worker_with_room_for_one_hands_on_in_order(rt: HostRuntime) -> Result<(), Fail> {
    let plan = Plan {
        workers: 1,
        limit: 1,
        before: 2,
        ..PLAIN
    };
    let answers: [&[Answer]; 1] = [&[NotYet, Give(1), Skip, Fails, Give(2), NotYet]];
    let wanted = b"0: 0.0 served 1\n1: 0.1 served 4\n2: 0.2 served 5\ndrained";
    come_in_order(&rt, &plan, &answers, wanted)
}
