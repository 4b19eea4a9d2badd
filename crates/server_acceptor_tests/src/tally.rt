//! Counts of events and of entries.
use crate::answer::name_of;
use server_core::Event;
use server_run::{Entry, MemoryLink};
use std::alloc::{AllocError, Global};

/// How many connections the events tell of that came.
pub(crate) fn count_got(events: &[Event]) -> u64 {
    let mut count: u64 = 0;
    for event in events {
        if let Event::Got(_) = *event {
            count = count.saturating_add(1);
        }
    }
    count
}

// Whether the entry is of one of so many connections of so many listeners, and has its link. It is marked, and was not before.
fn mark(marks: &mut [bool], entry: &Entry<MemoryLink>, links: u64) -> bool {
    if entry.place >= links || entry.link.name() != name_of(entry.token, entry.place) {
        return false;
    }
    let at = (entry.token as u64)
        .saturating_mul(links)
        .saturating_add(entry.place);
    match marks.get_mut(at as usize) {
        Some(mark) => {
            let was = *mark;
            *mark = true;
            !was
        }
        None => false,
    }
}

/// Whether each of so many connections of so many listeners is in one entry, with its link.
pub(crate) fn is_each_once(
    alloc: Global,
    entries: &[Entry<MemoryLink>],
    listeners: usize,
    links: u64,
) -> Result<bool, AllocError> {
    let count = listeners.saturating_mul(links as usize);
    let mut marks = vec![in alloc; false; count]?;
    for entry in entries {
        if !mark(&mut marks, entry, links) {
            return Ok(false);
        }
    }
    Ok(entries.len() == count)
}
