//! What an acceptor of two workers and two listeners shows after each event of a list.
use crate::acceptor::Acceptor;
use server_core::{Command, Event};

pub(crate) const PAUSE: Event = Event::Command(Command::Pause);

pub(crate) const RESUME: Event = Event::Command(Command::Resume);

pub(crate) const STOP: Event = Event::Command(Command::Stop { graceful: true });

pub(crate) const STOP_AT_ONCE: Event = Event::Command(Command::Stop { graceful: false });

// The waiting connection goes to a worker, which has room for more, or is full then.
pub(crate) const TO_ZERO: Event = Event::Sent {
    worker: 0,
    remains: true,
};

pub(crate) const FILLS_ZERO: Event = Event::Sent {
    worker: 0,
    remains: false,
};

pub(crate) const TO_ONE: Event = Event::Sent {
    worker: 1,
    remains: true,
};

pub(crate) const FILLS_ONE: Event = Event::Sent {
    worker: 1,
    remains: false,
};

pub(crate) const TO_TWO: Event = Event::Sent {
    worker: 2,
    remains: true,
};

/// Which of the two workers, in order.
#[derive(Clone, Copy)]
pub(crate) enum Workers {
    Nobody,
    Zero,
    One,
    ZeroOne,
    OneZero,
}

/// What is seen right after an event: how many connections each worker has, and the free workers in the order in which
/// they are picked.
#[derive(Clone, Copy)]
pub(crate) enum Seen {
    /// The event is not allowed.
    Refused,
    /// It is allowed, and a connection waits then.
    Waits([u64; 2], Workers),
    /// It is allowed, and no connection waits then.
    Rests([u64; 2], Workers),
}

/// What it was told, as is seen at the end of a list.
#[derive(Clone, Copy)]
pub(crate) enum Told {
    Nothing,
    Paused,
    Stopped,
    PausedAndStopped,
}

/// What is seen at the end of a list: the workers in order, the place that is asked first, the failures of each listener,
/// and what it was told.
pub(crate) type End = (Workers, usize, [u64; 2], Told);

/// Whether a new acceptor shows this after each event of the list, and that at its end.
pub(crate) fn shows(list: &[(Event, Seen)], end: End) -> bool {
    let mut acceptor = Acceptor::new(2, 2);
    goes(&mut acceptor, list) && ends(&acceptor, end)
}

// Whether each event of the list shows what it is to show.
fn goes(acceptor: &mut Acceptor, list: &[(Event, Seen)]) -> bool {
    for (event, seen) in list {
        if !after(acceptor, *event, *seen) {
            return false;
        }
    }
    true
}

// Whether the event shows what it is to show.
fn after(acceptor: &mut Acceptor, event: Event, seen: Seen) -> bool {
    let was_allowed = acceptor.happens(event);
    match seen {
        Seen::Refused => !was_allowed,
        Seen::Waits(out, free) => was_allowed && acceptor.waits() && has(acceptor, out, free),
        Seen::Rests(out, free) => was_allowed && !acceptor.waits() && has(acceptor, out, free),
    }
}

// Whether its workers have so many connections, and those are free.
fn has(acceptor: &Acceptor, out: [u64; 2], free: Workers) -> bool {
    acceptor.out(0) == Some(out[0]) && acceptor.out(1) == Some(out[1]) && picks(acceptor, free)
}

// Whether these are picked one after another, whichever are passed over.
fn picks(acceptor: &Acceptor, free: Workers) -> bool {
    let [first, without_zero, without_one] = picked(free);
    acceptor.pick(&[]) == first
        && acceptor.pick(&[0]) == without_zero
        && acceptor.pick(&[1]) == without_one
        && acceptor.pick(&[0, 1]).is_none()
}

fn ends(acceptor: &Acceptor, end: End) -> bool {
    let (order, next, failures, told) = end;
    stands(acceptor, order)
        && acceptor.next() == next
        && acceptor.failures(0) == Some(failures[0])
        && acceptor.failures(1) == Some(failures[1])
        && acceptor.told() == told_apart(told)
}

// Whether these workers get connections in turn.
fn stands(acceptor: &Acceptor, workers: Workers) -> bool {
    let order = acceptor.order();
    (order.first().copied(), order.get(1).copied(), order.len()) == standing(workers)
}

// The worker that is picked of these: where none is passed over, where worker 0 is, and where worker 1 is.
fn picked(free: Workers) -> [Option<usize>; 3] {
    match free {
        Workers::Nobody => [None, None, None],
        Workers::Zero => [Some(0), None, Some(0)],
        Workers::One => [Some(1), Some(1), None],
        Workers::ZeroOne => [Some(0), Some(1), Some(0)],
        Workers::OneZero => [Some(1), Some(1), Some(0)],
    }
}

// The first and the second of these, and how many they are.
fn standing(workers: Workers) -> (Option<u16>, Option<u16>, usize) {
    match workers {
        Workers::Nobody => (None, None, 0),
        Workers::Zero => (Some(0), None, 1),
        Workers::One => (Some(1), None, 1),
        Workers::ZeroOne => (Some(0), Some(1), 2),
        Workers::OneZero => (Some(1), Some(0), 2),
    }
}

// Whether it is paused, and whether a stop came.
fn told_apart(told: Told) -> (bool, bool) {
    match told {
        Told::Nothing => (false, false),
        Told::Paused => (true, false),
        Told::Stopped => (false, true),
        Told::PausedAndStopped => (true, true),
    }
}
