//! A link that goes through steps in memory.
ghost use Rattle.std.specs.Prelude.{◌≡◌, ◌<◌, ◌≤◌, ◌^◌, ◌+◌, [], Some, length, All};
ghost use Rattle.std.specs.List.{count_by};
ghost use Rattle.futures.specs.Poll.{OnPending};
ghost use Rattle.std.proofs.Math.Nat.{le_trans};
ghost use Rattle.std.proofs.lemmas.List.Sums.{sum_by-take-le};
ghost use Rattle.futures.specs.Task.{IsArmed, Keeps};
ghost use Rattle.service_core.specs.Link.{FaultCount, ReadAnswer, WaitCount, WriteAnswer};
ghost use Rattle.server_run.specs.Steps.{given_by, count_before, is_read_fail, is_write_fail, bytes_before, GoesByReads, GoesByWrites, IsAtStart, IsPlace, IsUnused, PassesOver, TakesSome};

use crate::{ReadStep, WriteStep};
use futures::task::{Context, Poll};
use service_core::{Link, LinkFault, Octets, Peer};
use std::alloc::Global;

/// A link in memory, which reads and writes as its steps say, and keeps what is written.
///
/// After the last step a read is at the end, and a write takes the whole piece.
#[derive(Drop)]
pub struct MemoryLink {
    name: u64,
    peer: Peer,
    reads: Vec<ReadStep>,
    /// The current step of `reads`.
    step: usize,
    /// How many bytes of that step were handed over.
    offset: usize,
    writes: Vec<WriteStep>,
    /// The current step of `writes`.
    write_step: usize,
    written: Octets,
    read_faults: u64,
    write_faults: u64,
    read_waits: u64,
    write_waits: u64,
    ghost few: { length (given_by reads.items) < 2 ^ 64 },
    ghost place: { IsPlace reads.items step offset },
    ghost takes: { All TakesSome writes.items },
    ghost failed_reads: { read_faults ≤ count_before is_read_fail reads.items step },
    ghost failed_writes: { write_faults ≤ count_before is_write_fail writes.items write_step },
}

impl MemoryLink {
    /// A link that nothing was done with, which takes no memory. Its reads hand over fewer than 2^64 bytes together, and
    /// each `Take` of its writes takes one byte or more.
    pub fn new(
        alloc: Global,
        name: u64,
        peer: Peer,
        reads: Vec<ReadStep>,
        writes: Vec<WriteStep>,
    ) -> MemoryLink
        requires few { length (given_by reads.items) < 2 ^ 64 }
        requires takes { All TakesSome writes.items }
        ensures identity { ⟦<MemoryLink as Link>⟧.identity result ≡ record { name = Some name; peer = peer; held = Some (given_by reads.items); read_fails = Some (count_by is_read_fail reads.items); write_fails = Some (count_by is_write_fail writes.items) } }
        ensures taken { ⟦<MemoryLink as Link>⟧.taken result ≡ 0 }
        ensures written { ⟦<MemoryLink as Link>⟧.written result ≡ Some [] }
        ensures read_faults { ⟦<MemoryLink as Link>⟧.read_faults result ≡ 0 }
        ensures write_faults { ⟦<MemoryLink as Link>⟧.write_faults result ≡ 0 }
        ensures read_waits { ⟦<MemoryLink as Link>⟧.read_waits result ≡ 0 }
        ensures write_waits { ⟦<MemoryLink as Link>⟧.write_waits result ≡ 0 }
        ensures reads { result.reads.items ≡ reads.items }
        ensures writes { result.writes.items ≡ writes.items }
        ensures start { IsAtStart result.step result.offset result.write_step }
    {
        MemoryLink {
            name,
            peer,
            reads,
            step: 0,
            offset: 0,
            writes,
            write_step: 0,
            written: Octets::new(alloc),
            read_faults: 0,
            write_faults: 0,
            read_waits: 0,
            write_waits: 0,
        }
    }

    /// The name that it was given.
    pub fn name(&self) -> u64
        ensures { Some result ≡ (⟦<MemoryLink as Link>⟧.identity self.now).name }
    {
        self.name
    }

    /// All bytes that were written.
    pub fn written(&self) -> &[u8]
        ensures { Some result.now ≡ ⟦<MemoryLink as Link>⟧.written self.now }
    {
        self.written.as_bytes()
    }

    /// Goes on to the next step that is no used-up `Give`.
    #[tactic(auto, using(crate::proofs::Fails::counted_onward))]
    fn pass_used(&mut self)
        ensures identity { ⟦<MemoryLink as Link>⟧.identity self.new ≡ ⟦<MemoryLink as Link>⟧.identity self.old }
        ensures reads { self.new.reads ≡ self.old.reads }
        ensures taken { ⟦<MemoryLink as Link>⟧.taken self.new ≡ ⟦<MemoryLink as Link>⟧.taken self.old }
        ensures written { ⟦<MemoryLink as Link>⟧.written self.new ≡ ⟦<MemoryLink as Link>⟧.written self.old }
        ensures read_faults { self.new.read_faults ≡ self.old.read_faults }
        ensures write_faults { self.new.write_faults ≡ self.old.write_faults }
        ensures read_waits { self.new.read_waits ≡ self.old.read_waits }
        ensures write_waits { self.new.write_waits ≡ self.old.write_waits }
        ensures unused { IsUnused self.new.reads.items self.new.step self.new.offset }
        ensures passes { PassesOver self.old.reads.items self.old.step self.new.step }
        ensures writes { self.new.writes ≡ self.old.writes }
        ensures write_step { self.new.write_step ≡ self.old.write_step }
    {
        let (step, offset) = unused_place(&self.reads, self.step, self.offset);
        self.step = step;
        self.offset = offset;
    }
}

/// The first place from here on that is no used-up `Give`.
fn unused_place(steps: &[ReadStep], mut step: usize, mut offset: usize) -> (usize, usize)
    requires { IsPlace steps.now step offset }
    ensures place { IsPlace steps.now result.0 result.1 }
    ensures before { bytes_before steps.now result.0 result.1 ≡ bytes_before steps.now step offset }
    ensures unused { IsUnused steps.now result.0 result.1 }
    ensures passes { PassesOver steps.now step result.0 }
{
    while let Some(current) = steps.get(step) {
        if !current.is_used_up(offset) {
            return (step, offset);
        }
        step += 1;
        offset = 0;
    }
    (step, offset)
}

impl Link for MemoryLink {
    ghost identity = { λ link. record { name = Some link.name; peer = link.peer; held = Some (given_by link.reads.items); read_fails = Some (count_by is_read_fail link.reads.items); write_fails = Some (count_by is_write_fail link.writes.items) } };

    ghost taken = { λ link. bytes_before link.reads.items link.step link.offset };

    ghost written = { λ link. Some link.written };

    ghost read_faults = { λ link. link.read_faults };

    ghost write_faults = { λ link. link.write_faults };

    ghost read_waits = { λ link. link.read_waits };

    ghost write_waits = { λ link. link.write_waits };

    fn peer(&self) -> Peer {
        self.peer
    }

    #[tactic(auto, using(crate::proofs::Fails::counted_more, crate::proofs::Fails::counted_onward))]
    fn poll_read(&mut self, cx: &mut Context<'_>, buf: &mut [u8]) -> Poll<Result<usize, LinkFault>>
        requires { 0 < length buf.old }
        ensures identity { ⟦<MemoryLink as Link>⟧.identity self.new ≡ ⟦<MemoryLink as Link>⟧.identity self.old }
        ensures answer { ReadAnswer (⟦<MemoryLink as Link>⟧.identity self.old).held (⟦<MemoryLink as Link>⟧.taken self.old) (⟦<MemoryLink as Link>⟧.taken self.new) buf.new result }
        ensures read_faults { FaultCount (⟦<MemoryLink as Link>⟧.read_faults self.old) (⟦<MemoryLink as Link>⟧.read_faults self.new) result }
        ensures read_waits { WaitCount (⟦<MemoryLink as Link>⟧.read_waits self.old) (⟦<MemoryLink as Link>⟧.read_waits self.new) result }
        ensures written { ⟦<MemoryLink as Link>⟧.written self.new ≡ ⟦<MemoryLink as Link>⟧.written self.old }
        ensures write_faults { ⟦<MemoryLink as Link>⟧.write_faults self.new ≡ ⟦<MemoryLink as Link>⟧.write_faults self.old }
        ensures write_waits { ⟦<MemoryLink as Link>⟧.write_waits self.new ≡ ⟦<MemoryLink as Link>⟧.write_waits self.old }
        ensures armed { OnPending result (IsArmed cx.new) }
        ensures kept { Keeps cx.old cx.new }
        ensures steps { GoesByReads self.old.reads.items self.old.step self.new.step result }
        ensures same_reads { self.new.reads ≡ self.old.reads }
        ensures same_writes { self.new.writes ≡ self.old.writes }
        ensures same_write_step { self.new.write_step ≡ self.old.write_step }
    {
        self.pass_used();
        match self.reads.get(self.step) {
            Some(ReadStep::Give(bytes)) => {
                let rest = &bytes.as_bytes()[self.offset..];
                let n = rest.len().min(buf.len());
                buf[..n].copy_from_slice(&rest[..n]);
                self.offset += n;
                Poll::Ready(Ok(n))
            }
            Some(ReadStep::NotYet) => {
                self.step += 1;
                self.read_waits = self.read_waits.saturating_add(1);
                cx.yield_now()
            }
            Some(ReadStep::Fail) => {
                self.step += 1;
                self.read_faults = self.read_faults.saturating_add(1);
                Poll::Ready(Err(LinkFault::Failed))
            }
            Some(ReadStep::Never) => {
                self.read_waits = self.read_waits.saturating_add(1);
                cx.yield_now()
            }
            None => Poll::Ready(Ok(0)),
        }
    }

    #[tactic(auto, using(crate::proofs::Fails::counted_more, crate::proofs::Fails::counted_onward))]
    fn poll_write(&mut self, cx: &mut Context<'_>, piece: &[u8]) -> Poll<Result<usize, LinkFault>>
        requires { 0 < length piece.now }
        ensures identity { ⟦<MemoryLink as Link>⟧.identity self.new ≡ ⟦<MemoryLink as Link>⟧.identity self.old }
        ensures answer { WriteAnswer (⟦<MemoryLink as Link>⟧.written self.old) (⟦<MemoryLink as Link>⟧.written self.new) piece.now result }
        ensures write_faults { FaultCount (⟦<MemoryLink as Link>⟧.write_faults self.old) (⟦<MemoryLink as Link>⟧.write_faults self.new) result }
        ensures write_waits { WaitCount (⟦<MemoryLink as Link>⟧.write_waits self.old) (⟦<MemoryLink as Link>⟧.write_waits self.new) result }
        ensures taken { ⟦<MemoryLink as Link>⟧.taken self.new ≡ ⟦<MemoryLink as Link>⟧.taken self.old }
        ensures read_faults { ⟦<MemoryLink as Link>⟧.read_faults self.new ≡ ⟦<MemoryLink as Link>⟧.read_faults self.old }
        ensures read_waits { ⟦<MemoryLink as Link>⟧.read_waits self.new ≡ ⟦<MemoryLink as Link>⟧.read_waits self.old }
        ensures armed { OnPending result (IsArmed cx.new) }
        ensures kept { Keeps cx.old cx.new }
        ensures steps { GoesByWrites self.old.writes.items (length piece.now) self.old.write_step self.new.write_step result }
        ensures same_writes { self.new.writes ≡ self.old.writes }
        ensures same_reads { self.new.reads ≡ self.old.reads }
        ensures same_step { self.new.step ≡ self.old.step }
        ensures same_offset { self.new.offset ≡ self.old.offset }
    {
        match self.writes.get(self.write_step) {
            Some(WriteStep::Take(most)) => {
                let n = piece.len().min(*most);
                match self.written.push_all(&piece[..n]) {
                    Ok(()) => {
                        self.write_step += 1;
                        Poll::Ready(Ok(n))
                    }
                    Err(_) => Poll::Ready(Err(LinkFault::Memory)),
                }
            }
            Some(WriteStep::NotYet) => {
                self.write_step += 1;
                self.write_waits = self.write_waits.saturating_add(1);
                cx.yield_now()
            }
            Some(WriteStep::Fail) => {
                self.write_step += 1;
                self.write_faults = self.write_faults.saturating_add(1);
                Poll::Ready(Err(LinkFault::Failed))
            }
            None => match self.written.push_all(piece) {
                Ok(()) => Poll::Ready(Ok(piece.len())),
                Err(_) => Poll::Ready(Err(LinkFault::Memory)),
            },
        }
    }

    ghost few_faults = { λ link. (
      le_trans link.failed_reads (sum_by-take-le _ link.reads.items link.step),
      le_trans link.failed_writes (sum_by-take-le _ link.writes.items link.write_step),
    ) };
}
