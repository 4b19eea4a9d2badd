//! What a run comes to, in words.
use serve_stage::{Log, are_numbered, count_of, entry_at};
use server_run::{End, Entry, ListenerState, MemoryLink, Report, ServeError};
use std::alloc::Global;

// What became of the connections of a listener, by their places: of each its outcome, and the name of its link.
fn tell_connections(log: &mut Log, entries: &[Entry<MemoryLink>], token: usize) {
    for place in 0..count_of(entries, token) {
        match entry_at(entries, token, place) {
            Some(entry) => {
                log.outcome(entry.outcome);
                log.before(" ", entry.link.name());
            }
            None => log.word(" none"),
        }
    }
}

// What became of a listener.
fn tell_state(log: &mut Log, state: ListenerState) {
    match state {
        ListenerState::Ended => log.word(" ended\n"),
        ListenerState::Faulted { failures: _ } => log.word(" failed\n"),
        ListenerState::Open => log.word(" open\n"),
    }
}

// How many connections have an entry.
fn tell_count(log: &mut Log, entries: &[Entry<MemoryLink>]) {
    log.before("entries ", entries.len() as u64);
    if !are_numbered(entries) {
        log.word(" with wrong numbers");
    }
}

// How a run ended.
fn tell_end(log: &mut Log, end: End) {
    match end {
        End::Drained => log.word(", drained"),
        End::Stopped { graceful: _ } => log.word(", stopped"),
        End::NoWorkers => log.word(", no workers"),
        End::Memory => log.lack_memory(),
    }
}

/// What a run came to that nothing but want of memory keeps from its begin.
pub(crate) fn told(
    alloc: Global,
    entries: &[Entry<MemoryLink>],
    run: Result<Report, ServeError<()>>,
) -> Log {
    let mut log = Log::new(alloc);
    let Ok(report) = run else {
        log.lack_memory();
        return log;
    };
    for token in 0..report.listeners.len() {
        log.before("", token as u64);
        log.word(":");
        tell_connections(&mut log, entries, token);
        tell_state(&mut log, report.listeners[token]);
    }
    tell_count(&mut log, entries);
    tell_end(&mut log, report.end);
    log
}
