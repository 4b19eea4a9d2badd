//! The search for a free worker among many, and workers that leave.
use crate::acceptor::Acceptor;
use server_core::Event;
use std::test::Fail;

// Whether the connection that waits finds the ring of each worker full, one after another.
fn finds_each_ring_full(acceptor: &mut Acceptor, workers: usize) -> bool {
    for worker in 0..workers {
        if !acceptor.happens(Event::RingFull(worker)) {
            return false;
        }
    }
    true
}

// Whether a connection comes, and finds each of the workers full.
fn fills(acceptor: &mut Acceptor, workers: usize) -> bool {
    acceptor.happens(Event::Got(0))
        && finds_each_ring_full(acceptor, workers)
        && picks(acceptor, 0, None)
}

// Whether the connection that waits goes to the worker, and another one waits then.
fn goes_to(acceptor: &mut Acceptor, worker: usize, remains: bool) -> bool {
    acceptor.all_happen(&[Event::Sent { worker, remains }, Event::Got(0)])
}

// Whether this place is asked first, and this worker picked.
fn picks(acceptor: &Acceptor, next: usize, worker: Option<usize>) -> bool {
    acceptor.next() == next && acceptor.pick(&[]) == worker
}

#[test]
fn a_search_goes_on_from_word_to_word(rt: HostRuntime) {
    let mut acceptor = Acceptor::new(512, 1);
    assert!(rt; fills(&mut acceptor, 512));
    assert!(rt; acceptor.all_happen(&[Event::Notice(127), Event::Notice(128), Event::Notice(400)]));
    assert!(rt; picks(&acceptor, 0, Some(127)));
    assert!(rt; acceptor.happens(Event::Notice(126)) && goes_to(&mut acceptor, 126, false));
    assert!(rt; picks(&acceptor, 127, Some(127)));
    assert!(rt; goes_to(&mut acceptor, 127, true) && picks(&acceptor, 128, Some(128)));
    assert!(rt; goes_to(&mut acceptor, 128, true) && picks(&acceptor, 129, Some(400)));
    assert!(rt; goes_to(&mut acceptor, 400, true) && picks(&acceptor, 401, Some(127)));
    assert!(rt; acceptor.happens(Event::Notice(511)) && picks(&acceptor, 401, Some(511)));
    assert!(rt; acceptor.pick(&[511]) == Some(127));
    assert!(rt; goes_to(&mut acceptor, 511, true) && picks(&acceptor, 0, Some(127)));
}

#[test]
fn the_last_one_takes_the_place_that_is_left(rt: HostRuntime) {
    let mut acceptor = Acceptor::new(4, 1);
    assert!(rt; acceptor.happens(Event::Got(0)) && goes_to(&mut acceptor, 0, true));
    assert!(rt; acceptor.happens(Event::Faulted(1)) && picks(&acceptor, 1, Some(3)));
    assert!(rt; acceptor.order() == [0, 3, 2].as_slice());
    assert!(rt; acceptor.pick(&[3]) == Some(2) && acceptor.pick(&[3, 2]) == Some(0));
    assert!(rt; goes_to(&mut acceptor, 3, false) && picks(&acceptor, 2, Some(2)));
    assert!(rt; goes_to(&mut acceptor, 2, false) && picks(&acceptor, 0, Some(0)));
}

#[test]
fn one_free_worker_of_many_is_found(rt: HostRuntime) {
    let mut acceptor = Acceptor::new(400, 1);
    assert!(rt; fills(&mut acceptor, 400));
    assert!(rt; acceptor.happens(Event::Notice(130)) && picks(&acceptor, 0, Some(130)));
    assert!(rt; goes_to(&mut acceptor, 130, true) && picks(&acceptor, 131, Some(130)));
}
