//! A connection of a script.
ghost use Rattle.std.specs.Prelude.{◌≡◌, ◌<◌, ◌++◌, Some, [], ◌∷◌, OnErr, OnOk};
ghost use Rattle.std.specs.List.{count_by};
ghost use Rattle.server_run.specs.Steps.{IsAtStart, TakesSome, bytes_of, is_read_fail, is_write_fail};
ghost use Rattle.script.specs.Planned.{and_reads, and_writes, gives, held_of, no_steps};

use crate::pieces::push_pieces;
use server_run::{MemoryLink, ReadStep, WriteStep};
use service_core::{Link, Peer};
use std::alloc::{AllocError, Global};
use std::marker::Model;

/// A connection of a script: its peer, and what its reads and its writes go by. A contract sees these as a plan.
#[derive(Drop)]
pub struct Connection {
    peer: Peer,
    reads: Vec<ReadStep>,
    writes: Vec<WriteStep>,
    /// How many bytes the reads hand over together.
    given: u64,
}

impl Model for Connection {
    ghost use Rattle.std.specs.Prelude.{◌≡◌, length, All};
    ghost use Rattle.server_run.specs.Steps.{TakesSome, given_by};
    ghost use Rattle.script.specs.Planned.{Planned};

    ghost Value = { Planned };

    ghost view = { λ c. record { peer = c.peer; reads = c.reads.items; writes = c.writes.items } };

    ghost invariant = { λ c. (c.given ≡ length (given_by c.reads.items)) × All TakesSome c.writes.items };
}

impl Connection {
    /// One that gives nothing yet.
    pub fn new(alloc: Global, peer: Peer) -> Connection
        ensures { result ≡ no_steps peer }
    {
        Connection {
            peer,
            reads: Vec::new(alloc),
            writes: Vec::new(alloc),
            given: 0,
        }
    }

    /// Who is at its other end, as its `conn` line says.
    pub fn peer(&self) -> Peer
        ensures { result ≡ self.now.peer }
    {
        self.peer
    }

    /// What its reads go by, in order.
    pub fn reads(&self) -> &[ReadStep]
        ensures { result.now ≡ self.now.reads }
    {
        &self.reads
    }

    /// What its writes go by, in order.
    pub fn writes(&self) -> &[WriteStep]
        ensures { result.now ≡ self.now.writes }
    {
        &self.writes
    }

    /// The bytes come in pieces of at most `cut`. Where memory runs out, or the connection would give 2^64 bytes or more,
    /// nothing changes.
    pub(crate) fn push_bytes(
        &mut self,
        alloc: Global,
        cut: usize,
        bytes: &[u8],
    ) -> Result<(), AllocError>
        requires { 0 < cut }
        ensures ok { OnOk result (self.new ≡ and_reads self.old (gives cut bytes.now)) }
        ensures err { OnErr result (self.new ≡ self.old) }
    {
        let Some(given) = self.given.checked_add(bytes.len() as u64) else {
            return Err(AllocError);
        };
        push_pieces(alloc, &mut self.reads, cut, bytes)?;
        self.given = given;
        Ok(())
    }

    /// The next read goes by this step, which hands over no bytes.
    pub(crate) fn push_read(&mut self, step: ReadStep) -> Result<(), AllocError>
        requires { bytes_of step ≡ [] }
        ensures ok { OnOk result (self.new ≡ and_reads self.old (step ∷ [])) }
        ensures err { OnErr result (self.new ≡ self.old) }
    {
        self.reads.push(step)?;
        Ok(())
    }

    /// The next write goes by this step.
    pub(crate) fn push_write(&mut self, step: WriteStep) -> Result<(), AllocError>
        requires { TakesSome step }
        ensures ok { OnOk result (self.new ≡ and_writes self.old (step ∷ [])) }
        ensures err { OnErr result (self.new ≡ self.old) }
    {
        self.writes.push(step)?;
        Ok(())
    }

    /// The link of this name that goes by these steps, and with which nothing was done.
    pub fn into_link(self, alloc: Global, name: u64) -> MemoryLink
        ensures identity { ⟦<MemoryLink as Link>⟧.identity result ≡ record { name = Some name; peer = self.peer; held = Some (held_of self); read_fails = Some (count_by is_read_fail self.reads); write_fails = Some (count_by is_write_fail self.writes) } }
        ensures taken { ⟦<MemoryLink as Link>⟧.taken result ≡ 0 }
        ensures written { ⟦<MemoryLink as Link>⟧.written result ≡ Some [] }
        ensures reads { result.reads.items ≡ self.reads }
        ensures writes { result.writes.items ≡ self.writes }
        ensures start { IsAtStart result.step result.offset result.write_step }
    {
        let Connection {
            peer,
            reads,
            writes,
            ..
        } = self;
        MemoryLink::new(alloc, name, peer, reads, writes)
    }
}
