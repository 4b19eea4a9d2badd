//! Sets of workers, and a short run of an accept loop.
use crate::acceptor::Acceptor;
use crate::lists::{FILLS_ZERO, PAUSE, RESUME, STOP, TO_ONE, TO_ZERO};
use server_core::laws::{
    a_pick_may_be_sent, any_events, balance_is_kept, each_connection_is_in_one_place,
    none_is_taken_meanwhile, workers_take_turns,
};
use server_core::{Availability, Event};
use std::test::Fail;

// Whether the worker lies at this place of this group.
fn lies_at(worker: usize, group: usize, place: usize) -> bool {
    worker < 512 && Availability::offset(worker) == (group, place)
}

#[test]
fn groups_and_places(rt: HostRuntime) {
    assert!(rt; lies_at(0, 0, 0));
    assert!(rt; lies_at(130, 1, 2));
    assert!(rt; lies_at(511, 3, 127));
}

// Whether the worker is marked.
fn is_marked(marked: &Availability, worker: usize) -> bool {
    worker < 512 && marked.get_available(worker)
}

// Marks the worker, or takes its mark.
fn mark(marked: &mut Availability, worker: usize, is_free: bool) {
    if worker < 512 {
        marked.set_available(worker, is_free);
    }
}

// Marks the first worker and the last one there can be.
fn mark_both_ends(marked: &mut Availability) {
    marked.set_available_all(&[0, 511]);
}

#[test]
fn marks_of_workers(rt: HostRuntime) {
    let mut marked = Availability::default();
    assert!(rt; !marked.available());
    mark(&mut marked, 130, true);
    mark_both_ends(&mut marked);
    assert!(rt; marked.available());
    assert!(rt; is_marked(&marked, 0) && is_marked(&marked, 130) && is_marked(&marked, 511));
    assert!(rt; !is_marked(&marked, 2) && !is_marked(&marked, 258));
    mark(&mut marked, 130, false);
    assert!(rt; !is_marked(&marked, 130) && is_marked(&marked, 511));
}

#[test]
fn two_workers_take_turns(rt: HostRuntime) {
    let mut acceptor = Acceptor::new(2, 2);
    assert!(rt; acceptor.pick(&[]) == Some(0));
    assert!(rt; acceptor.happens(Event::Got(1)) && acceptor.waits());
    assert!(rt; !acceptor.happens(Event::Got(0)));
    assert!(rt; !acceptor.happens(TO_ONE));
    assert!(rt; acceptor.happens(FILLS_ZERO) && acceptor.out(0) == Some(1));
    assert!(rt; acceptor.next() == 1 && !acceptor.waits());
    assert!(rt; acceptor.all_happen(&[Event::Got(0), Event::RingFull(1)]));
    assert!(rt; acceptor.pick(&[]).is_none());
    assert!(rt; acceptor.happens(Event::Notice(0)) && acceptor.pick(&[]) == Some(0));
    assert!(rt; acceptor.all_happen(&[TO_ZERO, Event::Back(0)]));
    assert!(rt; acceptor.out(0) == Some(1) && acceptor.out(1) == Some(0));
}

#[test]
fn workers_fault_and_listeners_end(rt: HostRuntime) {
    let mut acceptor = Acceptor::new(2, 2);
    assert!(rt; acceptor.all_happen(&[Event::ListenerFailed(0), Event::ListenerEnded(0)]));
    assert!(rt; !acceptor.happens(Event::Got(0)));
    assert!(rt; acceptor.happens(Event::Faulted(0)) && acceptor.order().len() == 1);
    assert!(rt; acceptor.happens(Event::Replaced(0)));
    assert!(rt; acceptor.order().first().copied() == Some(1));
    assert!(rt; acceptor.all_happen(&[Event::Faulted(1), Event::Retired(1)]));
    assert!(rt; !acceptor.happens(Event::Replaced(1)));
    assert!(rt; acceptor.all_happen(&[Event::Got(1), Event::Faulted(0)]) && acceptor.waits());
    assert!(rt; acceptor.happens(Event::Retired(0)) && !acceptor.waits());
}

#[test]
fn commands_keep_connections_off(rt: HostRuntime) {
    let mut acceptor = Acceptor::new(1, 1);
    assert!(rt; acceptor.happens(PAUSE) && acceptor.told() == (true, false));
    assert!(rt; !acceptor.happens(Event::Got(0)));
    assert!(rt; acceptor.all_happen(&[RESUME, Event::Got(0)]));
    assert!(rt; acceptor.happens(STOP) && acceptor.told() == (false, true));
    assert!(rt; !acceptor.waits() && !acceptor.happens(Event::Got(0)));
}

#[test]
fn laws(rt: HostRuntime) {
    balance_is_kept();
    none_is_taken_meanwhile();
    workers_take_turns();
    let core = any_events(1, 1, &[Event::Got(0), Event::Got(0), Event::Faulted(0)]);
    assert!(rt; core.waiting() && core.order().is_empty());
}

#[test]
fn the_law_of_each_connection_can_be_called() {
    each_connection_is_in_one_place();
}

#[test]
fn failures_are_counted_until_a_connection(rt: HostRuntime) {
    let mut acceptor = Acceptor::new(1, 2);
    assert!(rt; acceptor.all_happen(&[Event::ListenerFailed(1), Event::ListenerFailed(1)]));
    assert!(rt; acceptor.failures(1) == Some(2) && acceptor.failures(0) == Some(0));
    assert!(rt; acceptor.happens(Event::Got(1)) && acceptor.failures(1) == Some(0));
}

#[test]
fn a_pick_is_sent(rt: HostRuntime) {
    a_pick_may_be_sent();
    let mut acceptor = Acceptor::new(3, 1);
    assert!(rt; acceptor.happens(Event::Got(0)));
    assert!(rt; acceptor.happens(Event::RingFull(0)));
    assert!(rt; acceptor.pick(&[]) == Some(1) && acceptor.happens(Event::RingFull(1)));
}
