//! The lines of the connections, by the token of the listener and then by the place there.
ghost use Rattle.std.specs.Prelude.{◌≡◌, ◌++◌, map, IfOk, OnOk, IsPermutation};
ghost use Rattle.std.specs.List.{flat_map};
ghost use Rattle.report.specs.Report.{shown, outcome_word, entry_line, entries_of, entry_lines, IsByPlace};

use crate::hex::hex_letter;
use server_run::{Entry, MemoryLink, Outcome};
use service_core::Octets;
use std::alloc::{AllocError, Global};

/// The entries by place.
pub(crate) fn in_order(
    alloc: Global,
    entries: &[Entry<MemoryLink>],
) -> Result<Vec<&Entry<MemoryLink>>, AllocError>
    ensures same { IfOk result (λ ordered. IsPermutation entries.now (map (λ entry. entry.now) ordered.items)) }
    ensures by_place { IfOk result (λ ordered. IsByPlace (map (λ entry. entry.now) ordered.items)) }
{
    let mut ordered: Vec<&Entry<MemoryLink>> = entries.iter().collect(alloc)?;
    ordered.sort_by_key(|entry| entry.place)?;
    Ok(ordered)
}

/// Appends the lines of the entries, listener by listener, in their order.
#[tactic(auto, using(crate::proofs::Lines::entry_lines_more, std::proofs::Common::append_assoc))]
pub(crate) fn push_all_entries(
    alloc: Global,
    out: &mut Octets,
    listeners: usize,
    entries: &[&Entry<MemoryLink>],
) -> Result<(), AllocError>
    ensures { OnOk result (out.new ≡ out.old ++ entry_lines 0 listeners (map (λ entry. entry.now) entries.now)) }
{
    for token in 0..listeners {
        push_entries_of(alloc, out, token, entries)?;
    }
    Ok(())
}

// Appends the lines of the entries of one listener.
fn push_entries_of(
    alloc: Global,
    out: &mut Octets,
    token: usize,
    entries: &[&Entry<MemoryLink>],
) -> Result<(), AllocError>
    ensures { OnOk result (out.new ≡ out.old ++ flat_map entry_line (entries_of token (map (λ entry. entry.now) entries.now))) }
{
    for entry in entries {
        if entry.token == token {
            push_entry(alloc, out, entry)?;
        }
    }
    Ok(())
}

fn push_entry(alloc: Global, out: &mut Octets, entry: &Entry<MemoryLink>) -> Result<(), AllocError>
    ensures { OnOk result (out.new ≡ out.old ++ entry_line entry.now) }
{
    let token = entry.token;
    let place = entry.place;
    let word = outcome_word(entry.outcome);
    let head = format!(in alloc; "{token}.{place} {word} \"")?;
    out.push_all(head.as_bytes())?;
    push_shown(out, entry.link.written())?;
    out.push_all(b"\"\n")?;
    Ok(())
}

fn outcome_word(outcome: Outcome) -> &'static str
    ensures { result.now ≡ outcome_word outcome }
{
    match outcome {
        Outcome::Served => "served",
        Outcome::ReadFault => "read-fault",
        Outcome::WriteFault => "write-fault",
        Outcome::Upgraded => "upgraded",
        Outcome::Lost { .. } => "lost",
        Outcome::Stopped { forced: false } => "stopped",
        Outcome::Stopped { forced: true } => "stopped-forced",
        Outcome::Memory => "memory",
    }
}

// The bytes as they stand between quotes.
fn push_shown(out: &mut Octets, bytes: &[u8]) -> Result<(), AllocError>
    ensures { OnOk result (out.new ≡ out.old ++ flat_map shown bytes.now) }
{
    for byte in bytes {
        push_byte(out, *byte)?;
    }
    Ok(())
}

fn push_byte(out: &mut Octets, byte: u8) -> Result<(), AllocError>
    ensures { OnOk result (out.new ≡ out.old ++ shown byte) }
{
    match byte {
        b'\r' => out.push_all(b"\\r"),
        b'\n' => out.push_all(b"\\n"),
        b'\t' => out.push_all(b"\\t"),
        b'"' => out.push_all(b"\\\""),
        b'\\' => out.push_all(b"\\\\"),
        32..=126 => out.push_all(&[byte]),
        _ => out.push_all(&[b'\\', b'x', hex_letter(byte / 16), hex_letter(byte % 16)]),
    }
}
