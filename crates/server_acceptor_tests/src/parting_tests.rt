//! What becomes of a worker that ended by a fault, between two turns.
use crate::act::Act::{Entries, Leave, Replace, Retire, Turn, Worker};
use crate::answer::Answer::{Give, NotYet};
use crate::deed::Deed::{Back, Fault, Ready, Take};
use crate::one_worker::recalls;
use crate::plan::{PLAIN, Plan};
use crate::telling::{holds, tells, tells_told};
use server_commands::CommandStep::{self, Give as Told, NotYet as NotTold};
use server_core::Command::Stop;
use std::test::Fail;

const TWO: Plan = Plan {
    workers: 2,
    ..PLAIN
};

const GRACEFUL: CommandStep = Told(Stop { graceful: true });

#[test]
fn a_worker_that_left_gets_no_connection_any_more(rt: HostRuntime) -> Result<(), Fail> {
    let acts = [
        Worker(0, Ready),
        Worker(1, Ready),
        Turn,
        Worker(0, Fault),
        Turn,
        Leave(0),
        Turn,
        Leave(0),
        Turn,
    ];
    let wanted = b"turn, got 0, sent 0, got 0, sent 1\n\
        turn, lost 0\n\
        leave 0\n\
        turn, got 0, sent 1, got 0, sent 1\n\
        leave 0\n\
        turn, got 0, sent 1, ended 0\n";
    let answers = [Give(2), NotYet, Give(2), NotYet, Give(1)];
    holds(&rt, tells(&rt, TWO, &answers, &acts, wanted))
}

#[test]
fn one_that_has_none_out_is_put_back_in_order_and_gets_connections_again(
    rt: HostRuntime,
) -> Result<(), Fail> {
    let acts = [
        Worker(0, Ready),
        Worker(1, Ready),
        Turn,
        Worker(0, Back),
        Worker(0, Fault),
        Turn,
        Leave(0),
        Turn,
        Replace(0),
        Turn,
    ];
    let wanted = b"turn, got 0, sent 0, got 0, sent 1\n\
        turn, back 0, lost 0\n\
        leave 0\n\
        turn, got 0, sent 1\n\
        replace 0: yes\n\
        turn, got 0, sent 1, got 0, sent 0, ended 0\n";
    let answers = [Give(2), NotYet, Give(1), NotYet, Give(2)];
    holds(&rt, tells(&rt, TWO, &answers, &acts, wanted))
}

#[test]
fn what_a_worker_did_not_take_comes_back_as_lost_by_it_before_it_is_replaced(
    rt: HostRuntime,
) -> Result<(), Fail> {
    let wanted = b"turn, got 0, sent 0, got 0, sent 0\n\
        not replaced\n\
        not replaced\n\
        replaced\n\
        done: 0 from 0 at 0 lost by 0\n\
        done: 1 from 0 at 1 lost by 0\n\
        turn, got 0, sent 0, ended 0\n";
    holds(&rt, recalls(&rt, &[Give(2), NotYet, Give(1)], wanted))
}

#[test]
fn one_in_order_or_with_connections_out_is_neither_replaced_nor_retired(
    rt: HostRuntime,
) -> Result<(), Fail> {
    let acts = [
        Worker(0, Ready),
        Replace(0),
        Retire(0),
        Turn,
        Worker(0, Fault),
        Turn,
        Leave(0),
        Replace(0),
        Retire(0),
        Worker(0, Back),
        Turn,
        Replace(0),
        Retire(0),
    ];
    let wanted = b"replace 0: no\n\
        retire 0: no\n\
        turn, got 0, sent 0\n\
        turn, lost 0\n\
        leave 0\n\
        replace 0: no\n\
        retire 0: no\n\
        turn, back 0\n\
        replace 0: yes\n\
        retire 0: no\n";
    let answers = [Give(1), NotYet, NotYet];
    holds(&rt, tells(&rt, PLAIN, &answers, &acts, wanted))
}

#[test]
fn what_waits_is_lost_once_the_last_worker_is_retired(rt: HostRuntime) -> Result<(), Fail> {
    let plan = Plan { limit: 1, ..TWO };
    let acts = [
        Worker(0, Ready),
        Worker(1, Ready),
        Turn,
        Worker(0, Back),
        Worker(0, Fault),
        Turn,
        Leave(0),
        Retire(0),
        Replace(0),
        Worker(1, Back),
        Worker(1, Fault),
        Turn,
        Leave(1),
        Entries,
        Retire(1),
        Entries,
    ];
    let wanted = b"turn, got 0, filled 0, got 0, filled 1, got 0\n\
        turn, back 0, notice 0, lost 0\n\
        leave 0\n\
        retire 0: no\n\
        replace 0: no\n\
        turn, back 1, notice 1, lost 1\n\
        leave 1\n\
        done: 0 from 0 at 0\n\
        done: 1 from 0 at 1\n\
        retire 1: yes\n\
        done: 0 from 0 at 0\n\
        done: 1 from 0 at 1\n\
        done: 2 from 0 at 2 lost\n";
    holds(&rt, tells(&rt, plan, &[Give(9)], &acts, wanted))
}

#[test]
fn after_a_stop_the_last_worker_is_retired_as_any_other(rt: HostRuntime) -> Result<(), Fail> {
    let acts = [
        Worker(0, Ready),
        Turn,
        Worker(0, Fault),
        Turn,
        Worker(0, Take),
        Leave(0),
        Retire(0),
        Worker(0, Take),
        Entries,
    ];
    let wanted = b"turn\n\
        turn, stop, lost 0\n\
        worker 0 takes nothing\n\
        leave 0\n\
        retire 0: no\n\
        worker 0 takes nothing\n";
    let steps = [NotTold, GRACEFUL];
    holds(
        &rt,
        tells_told(
            &rt,
            PLAIN,
            &steps,
            &[NotYet, NotYet, Give(1)],
            &acts,
            wanted,
        ),
    )
}
