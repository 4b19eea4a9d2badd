//! Runs that are told to pause, to go on and to stop.
use crate::telling::come_to_when_told;
use serve_stage::Answer::{Give, Hang, NotYet, Wait};
use serve_stage::{Answer, PLAIN, Plan, Told};
use server_commands::CommandStep;
use server_core::Command;
use std::test::Fail;

const PAUSE: CommandStep = CommandStep::Give(Command::Pause);

const RESUME: CommandStep = CommandStep::Give(Command::Resume);

const STOP: CommandStep = CommandStep::Give(Command::Stop { graceful: true });

const STOP_BY_FORCE: CommandStep = CommandStep::Give(Command::Stop { graceful: false });

// Told so from the start.
fn at_once(steps: &[CommandStep]) -> Told<'_> {
    Told { after: 0, steps }
}

#[test]
fn a_paused_server_serves_once_it_goes_on(rt: HostRuntime) -> Result<(), Fail> {
    let told = at_once(&[PAUSE, CommandStep::NotYet, RESUME]);
    let wanted = b"0: served 0 ended\nentries 1, drained";
    come_to_when_told(&rt, &PLAIN.by_workers(), &[&[Give(1)]], told, wanted)
}

#[test]
fn a_server_that_stays_paused_stops_and_accepts_nothing(rt: HostRuntime) -> Result<(), Fail> {
    let told = at_once(&[PAUSE]);
    let wanted = b"0: open\n1: open\nentries 0, stopped, then 0, then not yet";
    let answers: [&[Answer]; 2] = [&[Give(1)], &[NotYet, Give(1)]];
    come_to_when_told(&rt, &PLAIN.by_workers(), &answers, told, wanted)
}

#[test]
fn a_graceful_stop_lets_a_connection_be_served(rt: HostRuntime) -> Result<(), Fail> {
    let plan = Plan {
        before: 100,
        step: 0,
        ..PLAIN
    };
    let told = Told {
        after: 1,
        steps: &[STOP],
    };
    let answers: [&[Answer]; 1] = [&[Give(1), Wait(900), Give(1)]];
    let wanted = b"0: served 0 open\nentries 1, stopped, then not yet";
    come_to_when_told(&rt, &plan.by_workers(), &answers, told, wanted)
}

#[test]
fn a_stop_by_force_hands_back_what_is_served(rt: HostRuntime) -> Result<(), Fail> {
    let told = Told {
        after: 5,
        steps: &[STOP_BY_FORCE],
    };
    let wanted = b"0: stopped forced 0 1 2 3 ended\n\
        1: stopped forced 100 ended\n\
        entries 5, stopped by force, then none, then none";
    come_to_when_told(
        &rt,
        &PLAIN.by_workers(),
        &[&[Hang(4)], &[Hang(1)]],
        told,
        wanted,
    )
}

#[test]
fn a_connection_that_waits_at_a_stop_comes_back_as_it_came(rt: HostRuntime) -> Result<(), Fail> {
    let plan = Plan {
        workers: 2,
        limit: 1,
        ..PLAIN
    };
    let told = Told {
        after: 2,
        steps: &[STOP_BY_FORCE],
    };
    let wanted = b"0: stopped forced 0 1 stopped 2 open\nentries 3, stopped by force, then 3";
    come_to_when_told(&rt, &[plan], &[&[Hang(2), Give(2)]], told, wanted)
}

#[test]
fn a_graceful_stop_hands_back_by_force_once_its_time_is_over(rt: HostRuntime) -> Result<(), Fail> {
    let at_once = Plan {
        timeout: 0,
        step: 0,
        ..PLAIN
    };
    let later = Plan {
        timeout: 2,
        ..PLAIN
    };
    let told = Told {
        after: 3,
        steps: &[STOP],
    };
    let wanted = b"0: stopped forced 0 1 2 ended\nentries 3, stopped, then none";
    come_to_when_told(&rt, &at_once.by_workers(), &[&[Hang(3)]], told, wanted)?;
    come_to_when_told(&rt, &later.by_workers(), &[&[Hang(3)]], told, wanted)
}

#[test]
fn the_first_stop_says_how_it_ends(rt: HostRuntime) -> Result<(), Fail> {
    let none: [&[Answer]; 1] = [&[Give(1)]];
    let gracefully = b"0: open\nentries 0, stopped, then 0";
    let by_force = b"0: open\nentries 0, stopped by force, then 0";
    let first = at_once(&[STOP, STOP_BY_FORCE]);
    let other = at_once(&[STOP_BY_FORCE, CommandStep::NotYet, STOP]);
    come_to_when_told(&rt, &PLAIN.by_workers(), &none, first, gracefully)?;
    come_to_when_told(&rt, &PLAIN.by_workers(), &none, other, by_force)
}

#[test]
fn a_second_stop_by_force_leaves_time_to_what_is_served(rt: HostRuntime) -> Result<(), Fail> {
    let plan = Plan {
        before: 100,
        step: 0,
        ..PLAIN
    };
    let told = Told {
        after: 2,
        steps: &[STOP, STOP_BY_FORCE],
    };
    let answers: [&[Answer]; 1] = [&[Give(2), Wait(900)]];
    let wanted = b"0: served 0 1 open\nentries 2, stopped, then not yet";
    come_to_when_told(&rt, &plan.by_workers(), &answers, told, wanted)
}
