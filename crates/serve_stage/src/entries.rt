//! What the entries of a run tell.
use server_run::{Entry, MemoryLink};

/// The entry of the connection at that place of a listener.
pub fn entry_at(
    entries: &[Entry<MemoryLink>],
    token: usize,
    place: u64,
) -> Option<&Entry<MemoryLink>> {
    for entry in entries {
        if entry.token == token && entry.place == place {
            return Some(entry);
        }
    }
    None
}

/// How many connections of a listener have an entry.
pub fn count_of(entries: &[Entry<MemoryLink>], token: usize) -> u64 {
    let mut count: u64 = 0;
    for entry in entries {
        if entry.token == token {
            count = count.saturating_add(1);
        }
    }
    count
}

// Whether an entry has this number.
fn is_numbered(entries: &[Entry<MemoryLink>], serial: u64) -> bool {
    for entry in entries {
        if entry.serial == serial {
            return true;
        }
    }
    false
}

/// Whether the serial numbers are all that lie below their count.
pub fn are_numbered(entries: &[Entry<MemoryLink>]) -> bool {
    for serial in 0..entries.len() as u64 {
        if !is_numbered(entries, serial) {
            return false;
        }
    }
    true
}
