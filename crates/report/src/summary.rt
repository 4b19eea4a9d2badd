//! The summary of a run.
ghost use Rattle.std.specs.Prelude.{◌≡◌, [], ◌∷◌, ◌++◌, map, length, decimal, IfOk, OnOk};
ghost use Rattle.report.specs.Told.{told_by};
ghost use Rattle.report.specs.Summary.{served_count, byte_count, summary_of, short_summary_of};

use crate::report::end_line;
use server_run::{End, Entry, MemoryLink};
use service_core::Octets;
use std::alloc::{AllocError, Global};

/// A line each for how many connections there were, how many requests, how many of these entries were served, and how many
/// bytes were written on all of them, whatever became of them; then the end. An `Err` is want of memory.
pub fn summary_text(
    alloc: Global,
    connections: usize,
    requests: u64,
    entries: &[Entry<MemoryLink>],
    end: End,
) -> Result<Octets, AllocError>
    ensures { IfOk result (λ text. text ≡ summary_of connections requests (served_count (map told_by entries.now)) (byte_count (map told_by entries.now)) end) }
{
    let mut out = Octets::new(alloc);
    push_line(alloc, &mut out, b"connections ", connections as u128)?;
    push_line(alloc, &mut out, b"requests ", u128::from(requests))?;
    push_line(alloc, &mut out, b"served ", served_count(entries) as u128)?;
    push_line(alloc, &mut out, b"answer-bytes ", byte_count(entries))?;
    out.push_all(end_line(end))?;
    Ok(out)
}

/// The summary of a server that kept no links: a line each for how many connections were handed over and how many of them
/// were served; then the end. An `Err` is want of memory.
pub fn short_summary_text(
    alloc: Global,
    connections: u64,
    served: u64,
    end: End,
) -> Result<Octets, AllocError>
    ensures { IfOk result (λ text. text ≡ short_summary_of connections served end) }
{
    let mut out = Octets::new(alloc);
    push_line(alloc, &mut out, b"connections ", u128::from(connections))?;
    push_line(alloc, &mut out, b"served ", u128::from(served))?;
    out.push_all(end_line(end))?;
    Ok(out)
}

// Appends a line of these words and this number.
fn push_line(alloc: Global, out: &mut Octets, words: &[u8], number: u128) -> Result<(), AllocError>
    ensures { OnOk result (out.new ≡ out.old ++ (words.now ++ (decimal number ++ 10 ∷ []))) }
{
    let line = format!(in alloc; "{number}\n")?;
    out.push_all(words)?;
    out.push_all(line.as_bytes())
}

// How many connections were served.
fn served_count(entries: &[Entry<MemoryLink>]) -> usize
    ensures { result ≡ served_count (map told_by entries.now) }
{
    entries
        .iter()
        .filter(|entry| entry.outcome.is_served())
        .count()
}

// How many bytes were written on all connections.
fn byte_count(entries: &[Entry<MemoryLink>]) -> u128
    ensures { result ≡ byte_count (map told_by entries.now) }
{
    let mut total: u128 = 0;
    for entry in entries {
        total += written_len(entry) as u128;
    }
    total
}

fn written_len(entry: &Entry<MemoryLink>) -> usize
    ensures { result ≡ length (told_by entry.now).1 }
{
    entry.link.written().len()
}
