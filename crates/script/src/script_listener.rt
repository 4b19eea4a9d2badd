//! A listener of a script.
ghost use Rattle.std.specs.Prelude.{◌≡◌, ◌<◌, ◌≤◌, if◌then◌else◌, false, Option, Some, None, [], ◌∷◌, length, IfOk, OnErr, OnOk};
ghost use Rattle.server_run.specs.Steps.{TakesSome, bytes_of};
ghost use Rattle.script.specs.Offering.{Offers};
ghost use Rattle.script.specs.Planned.{and_coming, and_connection, and_reads, and_writes, at_last_connection, gives, is_connection, nothing_comes};

use crate::coming::Coming;
use crate::connection::Connection;
use crate::steps::steps_of;
use server_run::{MemoryLink, MemoryListener, ReadStep, WriteStep};
use service_core::{Link, Peer};
use std::alloc::{AllocError, Global};
use std::marker::Model;

/// A listener of a script: what it answers, in order, and its connections, of which there are 100,000 at the most. A contract
/// sees these as a plan.
#[derive(Drop)]
pub struct ScriptListener {
    comings: Vec<Coming>,
    connections: Vec<Connection>,
}

impl Model for ScriptListener {
    ghost use Rattle.std.specs.Prelude.{◌≡◌, ◌≤◌, length};
    ghost use Rattle.std.specs.List.{count_by};
    ghost use Rattle.script.specs.Planned.{Listening, is_connection};

    ghost Value = { Listening };

    ghost view = { λ l. record { comings = l.comings.items; connections = l.connections.items } };

    ghost invariant = { λ l. (count_by is_connection l.comings.items ≡ length l.connections.items) × (length l.connections.items ≤ 100000) };
}

impl ScriptListener {
    /// One that answers nothing yet.
    pub fn new(alloc: Global) -> ScriptListener
        ensures { result ≡ nothing_comes }
    {
        ScriptListener {
            comings: Vec::new(alloc),
            connections: Vec::new(alloc),
        }
    }

    /// What it answers, in order.
    pub fn comings(&self) -> &[Coming]
        ensures { result.now ≡ self.now.comings }
    {
        &self.comings
    }

    /// The connections among what it answers, in order.
    pub fn connections(&self) -> &[Connection]
        ensures value { result.now ≡ self.now.connections }
        ensures few { length self.now.connections ≤ 100000 }
    {
        &self.connections
    }

    /// It answers a connection of this peer next. Where memory runs out, nothing changes.
    pub(crate) fn push_connection(&mut self, alloc: Global, peer: Peer) -> Result<(), AllocError>
        requires { length self.old.connections < 100000 }
        ensures ok { OnOk result (self.new ≡ and_connection self.old peer) }
        ensures err { OnErr result (self.new ≡ self.old) }
    {
        self.comings.reserve(1)?;
        self.connections.reserve(1)?;
        self.comings.push_reserved(Coming::Connection);
        self.connections.push_reserved(Connection::new(alloc, peer));
        Ok(())
    }

    /// It answers this next, which is no connection. Where memory runs out, nothing changes.
    pub(crate) fn push_coming(&mut self, coming: Coming) -> Result<(), AllocError>
        requires { is_connection coming ≡ false }
        ensures ok { OnOk result (self.new ≡ and_coming self.old coming) }
        ensures err { OnErr result (self.new ≡ self.old) }
    {
        self.comings.push(coming)?;
        Ok(())
    }

    /// What its last connection gives comes in pieces of at most `cut`. Returns whether there is a connection; where there is
    /// none, and where memory runs out, nothing changes.
    pub(crate) fn push_bytes(
        &mut self,
        alloc: Global,
        cut: usize,
        bytes: &[u8],
    ) -> Result<bool, AllocError>
        requires { 0 < cut }
        ensures taken { IfOk result (λ taken. (if taken then Some self.new else None) ≡ at_last_connection (λ connection. and_reads connection (gives cut bytes.now)) self.old) }
        ensures refused { IfOk result (λ taken. taken ≡ false → self.new ≡ self.old) }
        ensures err { OnErr result (self.new ≡ self.old) }
    {
        let Some(connection) = self.connections.last_mut() else {
            return Ok(false);
        };
        connection.push_bytes(alloc, cut, bytes)?;
        Ok(true)
    }

    /// A read of its last connection goes by this step next, which hands over no bytes. Returns whether there is a connection;
    /// where there is none, and where memory runs out, nothing changes.
    pub(crate) fn push_read(&mut self, step: ReadStep) -> Result<bool, AllocError>
        requires { bytes_of step ≡ [] }
        ensures taken { IfOk result (λ taken. (if taken then Some self.new else None) ≡ at_last_connection (λ connection. and_reads connection (step ∷ [])) self.old) }
        ensures refused { IfOk result (λ taken. taken ≡ false → self.new ≡ self.old) }
        ensures err { OnErr result (self.new ≡ self.old) }
    {
        let Some(connection) = self.connections.last_mut() else {
            return Ok(false);
        };
        connection.push_read(step)?;
        Ok(true)
    }

    /// A write of its last connection goes by this step next. Returns whether there is a connection; where there is none, and
    /// where memory runs out, nothing changes.
    pub(crate) fn push_write(&mut self, step: WriteStep) -> Result<bool, AllocError>
        requires { TakesSome step }
        ensures taken { IfOk result (λ taken. (if taken then Some self.new else None) ≡ at_last_connection (λ connection. and_writes connection (step ∷ [])) self.old) }
        ensures refused { IfOk result (λ taken. taken ≡ false → self.new ≡ self.old) }
        ensures err { OnErr result (self.new ≡ self.old) }
    {
        let Some(connection) = self.connections.last_mut() else {
            return Ok(false);
        };
        connection.push_write(step)?;
        Ok(true)
    }

    /// The listener in memory that answers the same, with a link for each connection, and then ends.
    pub fn into_listener(self, alloc: Global) -> Result<MemoryListener, AllocError>
        ensures { IfOk result (Offers ⟦<MemoryLink as Link>⟧ self) }
    {
        let ScriptListener {
            comings,
            connections,
        } = self;
        let steps = steps_of(alloc, &comings, connections)?;
        Ok(MemoryListener::new(alloc, steps))
    }
}
