//! What an acceptor does that is told to pause, to go on and to stop.
use crate::act::Act::{Count, Entries, Turn, Worker};
use crate::answer::Answer::Give;
use crate::deed::Deed::{Back, Halt, Notes, Ready, Take};
use crate::plan::{PLAIN, Plan};
use crate::telling::{holds, tells_told};
use server_commands::CommandStep::{self, Give as Told, NotYet};
use server_core::Command::{Pause, Resume, Stop};
use std::test::Fail;

const GRACEFUL: CommandStep = Told(Stop { graceful: true });

const AT_ONCE: CommandStep = Told(Stop { graceful: false });

#[test]
fn a_worker_has_30_seconds_after_a_graceful_stop(rt: HostRuntime) -> Result<(), Fail> {
    let plan = Plan {
        step: 29_999,
        ..PLAIN
    };
    let acts = [
        Worker(0, Ready),
        Turn,
        Turn,
        Turn,
        Worker(0, Take),
        Worker(0, Take),
        Worker(0, Take),
    ];
    let wanted = b"turn, got 0, sent 0, ended 0\n\
        turn, stop\n\
        turn\n\
        worker 0 takes 0 from 0 at 0\n\
        worker 0 takes a stop\n\
        worker 0 takes nothing\n";
    let steps = [NotYet, GRACEFUL, NotYet, NotYet];
    holds(
        &rt,
        tells_told(&rt, plan, &steps, &[Give(1)], &acts, wanted),
    )
}

#[test]
fn after_30_seconds_a_worker_is_forced(rt: HostRuntime) -> Result<(), Fail> {
    let plan = Plan {
        step: 30_000,
        ..PLAIN
    };
    let acts = [
        Worker(0, Ready),
        Turn,
        Turn,
        Turn,
        Worker(0, Take),
        Worker(0, Take),
        Worker(0, Take),
    ];
    let wanted = b"turn, got 0, sent 0, ended 0\n\
        turn, stop\n\
        turn, stopped\n\
        worker 0 takes 0 from 0 at 0\n\
        worker 0 takes a stop\n\
        worker 0 takes a stop at once\n";
    let steps = [NotYet, GRACEFUL, NotYet, NotYet];
    holds(
        &rt,
        tells_told(&rt, plan, &steps, &[Give(1)], &acts, wanted),
    )
}

#[test]
fn a_stop_that_is_not_graceful_is_one_message(rt: HostRuntime) -> Result<(), Fail> {
    let acts = [
        Worker(0, Ready),
        Turn,
        Turn,
        Worker(0, Take),
        Worker(0, Take),
        Worker(0, Take),
    ];
    let wanted = b"turn, got 0, sent 0, ended 0\n\
        turn, stop at once, stopped at once\n\
        worker 0 takes 0 from 0 at 0\n\
        worker 0 takes a stop at once\n\
        worker 0 takes nothing\n";
    let steps = [NotYet, AT_ONCE];
    holds(
        &rt,
        tells_told(&rt, PLAIN, &steps, &[Give(1)], &acts, wanted),
    )
}

#[test]
fn a_second_stop_changes_nothing(rt: HostRuntime) -> Result<(), Fail> {
    let acts = [
        Worker(0, Ready),
        Turn,
        Turn,
        Worker(0, Take),
        Worker(0, Take),
        Worker(0, Take),
    ];
    let wanted = b"turn, got 0, sent 0, ended 0\n\
        turn, stop, stop at once\n\
        worker 0 takes 0 from 0 at 0\n\
        worker 0 takes a stop\n\
        worker 0 takes nothing\n";
    let steps = [NotYet, GRACEFUL, AT_ONCE];
    holds(
        &rt,
        tells_told(&rt, PLAIN, &steps, &[Give(1)], &acts, wanted),
    )
}

#[test]
fn nothing_is_accepted_while_it_is_paused(rt: HostRuntime) -> Result<(), Fail> {
    let acts = [Worker(0, Ready), Turn, Turn];
    let wanted = b"turn, pause\n\
        turn, resume, got 0, sent 0, ended 0\n";
    let steps = [Told(Pause), NotYet, Told(Resume)];
    holds(
        &rt,
        tells_told(&rt, PLAIN, &steps, &[Give(1)], &acts, wanted),
    )
}

#[test]
fn a_source_that_ends_while_it_is_paused_stops_it(rt: HostRuntime) -> Result<(), Fail> {
    let acts = [Worker(0, Ready), Turn, Worker(0, Take)];
    let wanted = b"turn, pause, stop, stopped\n\
        worker 0 takes a stop\n";
    holds(
        &rt,
        tells_told(&rt, PLAIN, &[Told(Pause)], &[Give(1)], &acts, wanted),
    )
}

#[test]
fn what_waits_is_let_go_at_a_stop(rt: HostRuntime) -> Result<(), Fail> {
    let plan = Plan { limit: 1, ..PLAIN };
    let acts = [
        Worker(0, Ready),
        Turn,
        Turn,
        Entries,
        Worker(0, Back),
        Turn,
        Entries,
    ];
    let wanted = b"turn, got 0, filled 0, got 0\n\
        turn, stop\n\
        done: 1 from 0 at 1 let go\n\
        turn, back 0, notice 0, stopped\n\
        done: 1 from 0 at 1 let go\n\
        done: 0 from 0 at 0\n";
    let steps = [NotYet, GRACEFUL];
    holds(
        &rt,
        tells_told(&rt, plan, &steps, &[Give(2)], &acts, wanted),
    )
}

#[test]
fn a_stopped_connection_is_taken_only_after_a_stop(rt: HostRuntime) -> Result<(), Fail> {
    let acts = [
        Worker(0, Ready),
        Turn,
        Worker(0, Halt),
        Turn,
        Worker(0, Notes),
        Turn,
        Worker(0, Notes),
        Entries,
    ];
    let wanted = b"turn, got 0, sent 0, ended 0\n\
        turn\n\
        notes of worker 0: 1\n\
        turn, stop, back 0, stopped\n\
        notes of worker 0: 0\n\
        done: 0 from 0 at 0 stopped\n";
    let steps = [NotYet, NotYet, GRACEFUL];
    holds(
        &rt,
        tells_told(&rt, PLAIN, &steps, &[Give(1)], &acts, wanted),
    )
}

#[test]
fn two_hundred_and_fifty_six_commands_are_taken_in_a_turn(rt: HostRuntime) -> Result<(), Fail> {
    let acts = [Worker(0, Ready), Count, Count];
    let wanted = b"turn, got 0 in 256, room for 352\n\
        turn, got 1 in 47, room for 561\n";
    holds(
        &rt,
        tells_told(&rt, PLAIN, &[Told(Resume); 300], &[Give(1)], &acts, wanted),
    )
}

#[test]
fn a_stop_that_finds_no_place_is_sent_in_a_later_turn(rt: HostRuntime) -> Result<(), Fail> {
    let plan = Plan { places: 1, ..PLAIN };
    let acts = [
        Worker(0, Ready),
        Turn,
        Turn,
        Worker(0, Take),
        Turn,
        Worker(0, Take),
    ];
    let wanted = b"turn, got 0, sent 0, ended 0\n\
        turn, stop\n\
        worker 0 takes 0 from 0 at 0\n\
        turn\n\
        worker 0 takes a stop\n";
    let steps = [NotYet, GRACEFUL];
    holds(
        &rt,
        tells_told(&rt, plan, &steps, &[Give(1)], &acts, wanted),
    )
}

#[test]
fn each_worker_is_stopped(rt: HostRuntime) -> Result<(), Fail> {
    let plan = Plan {
        workers: 2,
        ..PLAIN
    };
    let acts = [Turn, Worker(0, Take), Worker(1, Take), Worker(1, Take)];
    let wanted = b"turn, stop at once, stopped at once\n\
        worker 0 takes a stop at once\n\
        worker 1 takes a stop at once\n\
        worker 1 takes nothing\n";
    holds(
        &rt,
        tells_told(&rt, plan, &[AT_ONCE], &[Give(1)], &acts, wanted),
    )
}
