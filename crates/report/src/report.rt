//! The text of a report.
ghost use Rattle.std.specs.Prelude.{◌≡◌, ◌++◌, OnOk, IfOk};
ghost use Rattle.report.specs.Report.{state_line, state_lines, state_word, end_line, IsText};

use crate::entries::{in_order, push_all_entries};
use server_run::{End, Entry, ListenerState, MemoryLink, Report};
use service_core::Octets;
use std::alloc::{AllocError, Global};

/// A line for each connection, by its listener's token and then by its place there, one for each listener, and the end.
pub fn report_text(
    alloc: Global,
    entries: &[Entry<MemoryLink>],
    report: &Report,
) -> Result<Octets, AllocError>
    ensures { IfOk result (IsText entries.now report.now) }
{
    let ordered = in_order(alloc, entries)?;
    let mut out = Octets::new(alloc);
    push_all_entries(alloc, &mut out, report.listeners.len(), &ordered)?;
    push_states(alloc, &mut out, &report.listeners)?;
    out.push_all(end_line(report.end))?;
    Ok(out)
}

pub(crate) fn end_line(end: End) -> &'static [u8]
    ensures { result.now ≡ end_line end }
{
    match end {
        End::Drained => b"end drained\n",
        End::Stopped { graceful: true } => b"end stopped graceful\n",
        End::Stopped { graceful: false } => b"end stopped forced\n",
        End::NoWorkers => b"end no-workers\n",
        End::Memory => b"end memory\n",
    }
}

// Appends a line for each listener.
fn push_states(alloc: Global, out: &mut Octets, states: &[ListenerState]) -> Result<(), AllocError>
    ensures { OnOk result (out.new ≡ out.old ++ state_lines 0 states.now) }
{
    for (token, state) in states.iter().enumerate() {
        push_state(alloc, out, token, *state)?;
    }
    Ok(())
}

fn push_state(
    alloc: Global,
    out: &mut Octets,
    token: usize,
    state: ListenerState,
) -> Result<(), AllocError>
    ensures { OnOk result (out.new ≡ out.old ++ state_line token state) }
{
    let head = format!(in alloc; "listener {token} ")?;
    out.push_all(head.as_bytes())?;
    push_word(alloc, out, state)?;
    out.push_all(b"\n")
}

// What became of a listener, in words.
fn push_word(alloc: Global, out: &mut Octets, state: ListenerState) -> Result<(), AllocError>
    ensures { OnOk result (out.new ≡ out.old ++ state_word state) }
{
    match state {
        ListenerState::Ended => out.push_all(b"ended"),
        ListenerState::Faulted { failures } => {
            let word = format!(in alloc; "faulted {failures}")?;
            out.push_all(word.as_bytes())
        }
        ListenerState::Open => out.push_all(b"open"),
    }
}
