//! What a run comes to, in words.
use crate::answer::{Answer, listeners};
use crate::end_after::EndAfter;
use crate::entries::{are_numbered, count_of, entry_at};
use crate::gated::{Gated, Told};
use crate::log::Log;
use crate::plan::Plan;
use crate::stage::Stage;
use server::Server;
use server_commands::{Commands, NoCommands};
use server_run::{
    Accepted, End, Entry, Host, Listener, ListenerState, MemoryLink, MemoryListener, Report,
    ServeError,
};
use std::alloc::{AllocError, Global};
use std::sync::Arc;
use std::sync::atomic::AtomicU64;

// What became of the connections of a listener, by their names in order. An outcome stands before all to which it applies.
fn tell_connections(log: &mut Log, entries: &[Entry<MemoryLink>], token: usize) {
    let mut last = None;
    for place in 0..count_of(entries, token) {
        match entry_at(entries, token, place) {
            Some(entry) => {
                if last != Some(entry.outcome) {
                    log.outcome(entry.outcome);
                    last = Some(entry.outcome);
                }
                log.before(" ", entry.link.name());
            }
            None => log.word(" none"),
        }
    }
}

// What became of a listener.
fn tell_state(log: &mut Log, state: ListenerState) {
    match state {
        ListenerState::Ended => log.word(" ended\n"),
        ListenerState::Faulted { failures } => {
            log.before(" failed ", failures);
            log.word("\n");
        }
        ListenerState::Open => log.word(" open\n"),
    }
}

// How many connections have an entry.
fn tell_count(log: &mut Log, entries: &[Entry<MemoryLink>]) {
    log.before("entries ", entries.len() as u64);
    if !are_numbered(entries) {
        log.word(" with wrong numbers");
    }
}

// The entries in the order in which they came: of each its number, its token and place, its outcome, and its link's name.
fn tell_entries(log: &mut Log, entries: &[Entry<MemoryLink>]) {
    for entry in entries {
        log.before("", entry.serial);
        log.before(": ", entry.token as u64);
        log.before(".", entry.place);
        log.outcome(entry.outcome);
        log.before(" ", entry.link.name());
        log.word("\n");
    }
}

// What a run that served came to.
fn tell_report(log: &mut Log, entries: &[Entry<MemoryLink>], report: &Report) {
    for token in 0..report.listeners.len() {
        log.before("", token as u64);
        log.word(":");
        tell_connections(log, entries, token);
        tell_state(log, report.listeners[token]);
    }
    tell_count(log, entries);
    match report.end {
        End::Drained => log.word(", drained"),
        End::Stopped { graceful: true } => log.word(", stopped"),
        End::Stopped { graceful: false } => log.word(", stopped by force"),
        End::NoWorkers => log.word(", no workers"),
        End::Memory => log.lack_memory(),
    }
}

// Why a run did not begin.
fn tell_error(log: &mut Log, plan: &Plan, error: ServeError<usize>) {
    match error {
        ServeError::NoListener => log.word("no listener"),
        ServeError::Spawn { worker } => {
            if plan.unstarted != Some(worker) {
                log.lack_memory();
            }
            log.before("no worker ", worker as u64);
        }
        ServeError::Startup {
            worker,
            token,
            error,
        } => {
            if worker >= plan.workers {
                log.word("a wrong worker: ");
            }
            if error == usize::MAX {
                log.lack_memory();
            }
            log.before("no service ", token as u64);
            log.before(" by ", error as u64);
        }
        ServeError::Memory => log.lack_memory(),
    }
}

// What a listener gives next.
fn tell_next(log: &mut Log, listener: &mut MemoryListener) {
    match listener.accept() {
        Accepted::Got(link) => log.before(", then ", link.name()),
        Accepted::NotYet => log.word(", then not yet"),
        Accepted::Skipped | Accepted::Failed | Accepted::Ended => log.word(", then none"),
    }
}

impl Stage {
    // What a run came to.
    fn tell(&mut self, plan: &Plan, run: Result<Report, ServeError<usize>>) -> Log {
        let mut log = Log::new(self.alloc);
        match run {
            Ok(report) => {
                tell_report(&mut log, self.done.entries(), &report);
                if report.end != End::Drained {
                    self.tell_rest(&mut log);
                }
            }
            Err(error) => {
                tell_error(&mut log, plan, error);
                log.word(", ");
                tell_count(&mut log, self.done.entries());
                self.tell_rest(&mut log);
            }
        }
        log
    }

    // What each listener gives next.
    fn tell_rest(&mut self, log: &mut Log) {
        for listener in &mut self.listeners {
            tell_next(log, listener);
        }
    }

    // The entries of a run that nothing but want of memory stops, and its end.
    fn tell_order(&self, run: Result<Report, ServeError<usize>>) -> Log {
        let mut log = Log::new(self.alloc);
        tell_entries(&mut log, self.done.entries());
        match run {
            Ok(Report { end, .. }) if end == End::Drained => log.word("drained"),
            Ok(_) | Err(_) => log.lack_memory(),
        }
        log
    }
}

/// What serving comes to, by a server of the plan that these commands tell, over listeners that answer so: of each connection, by
/// token and place, the name of its link and its outcome, of each listener what became of it, and the end.
pub fn served_by<Ho: Host + 'static, Co: Commands>(
    rt: &Ho,
    alloc: Global,
    plan: &Plan,
    answers: &[&[Answer]],
    server: Server<EndAfter>,
    commands: &mut Co,
) -> Result<Log, AllocError> {
    let mut stage = Stage::new(alloc, plan, listeners(alloc, answers)?)?;
    let run = stage.run(rt, server, commands);
    Ok(stage.tell(plan, run))
}

/// The same by a server that is told nothing.
pub fn served<Ho: Host + 'static>(
    rt: &Ho,
    alloc: Global,
    plan: &Plan,
    answers: &[&[Answer]],
) -> Result<Log, AllocError> {
    let server = plan.server(alloc, Arc::new(alloc, AtomicU64::new(0))?)?;
    served_by(rt, alloc, plan, answers, server, &mut NoCommands::new())
}

/// The same by a server that is told so. What each listener gives next stands at the end.
pub fn served_when_told<Ho: Host + 'static>(
    rt: &Ho,
    alloc: Global,
    plan: &Plan,
    answers: &[&[Answer]],
    told: &Told<'_>,
) -> Result<Log, AllocError> {
    let begun = Arc::new(alloc, AtomicU64::new(0))?;
    let mut commands = Gated::new(alloc, Arc::try_clone(&begun)?, told)?;
    let server = plan.server(alloc, begun)?;
    let mut log = served_by(rt, alloc, plan, answers, server, &mut commands)?;
    if commands.gave_up() {
        log.lack_memory();
    }
    Ok(log)
}

/// The entries that serving by the plan gives, in the order in which they come, and the end.
pub fn served_in_order<Ho: Host + 'static>(
    rt: &Ho,
    alloc: Global,
    plan: &Plan,
    answers: &[&[Answer]],
) -> Result<Log, AllocError> {
    let server = plan.server(alloc, Arc::new(alloc, AtomicU64::new(0))?)?;
    let mut stage = Stage::new(alloc, plan, listeners(alloc, answers)?)?;
    let run = stage.run(rt, server, &mut NoCommands::new());
    Ok(stage.tell_order(run))
}
