//! A script, and what it asks for.
ghost use Rattle.std.specs.Prelude.{◌≡◌, ◌≤◌, ◌&&◌, ◌||◌, if◌then◌else◌, false, [], length, IfOk, Option, OnErr, Some, None};
ghost use Rattle.server_run.specs.Steps.{TakesSome, bytes_of};
ghost use Rattle.script.specs.Planned.{is_connection};
ghost use Rattle.script.specs.PolicyText.{is_permissive};
ghost use Rattle.script.specs.Ranges.{IsInRange, IsPlaceInRange, IsSettingInRange};
ghost use Rattle.script.specs.Script.{and_setting, connection_count, is_listening, nothing_yet, with_bytes, with_coming, with_connection, with_line, with_listener, with_place, with_policy, with_read, with_setting, with_write};

use crate::coming::Coming;
use crate::line::Line;
use crate::place::PlaceLine;
use crate::policy::PolicyLine;
use crate::script_listener::ScriptListener;
use crate::setting::{SettingLine, Settings};
use http1_plain::Limits;
use server_run::{ReadStep, WriteStep};
use service_core::{Octets, Peer};
use std::alloc::{AllocError, Global};

/// How many listeners a script has at the most.
const MAX_LISTENERS: usize = 64;

/// How many connections a script has at the most, of all its listeners together.
const MAX_CONNECTIONS: usize = 100_000;

/// What the lines of a script ask for.
#[derive(Drop)]
pub struct Script {
    /// What it says of the policy, line by line.
    pub policy: Vec<PolicyLine>,
    /// How its connections are served, and by what.
    pub settings: Settings,
    /// Its listeners in order, 64 at the most.
    pub listeners: Vec<ScriptListener>,
    ghost few: { length listeners.items ≤ 64 },
}

impl Script {
    ghost use Rattle.script.specs.Plan.{plan};

    /// A script that asks for nothing yet.
    pub fn new(alloc: Global) -> Script
        ensures { plan result ≡ nothing_yet }
    {
        Script {
            policy: Vec::new(alloc),
            settings: Settings::new(),
            listeners: Vec::new(alloc),
        }
    }

    /// Takes what one more line says. Returns whether it can stand here; where it cannot, and where memory runs out, the
    /// script asks for what it asked before.
    pub fn push(&mut self, alloc: Global, said: Line) -> Result<bool, AllocError>
        requires { IsInRange said }
        ensures taken { IfOk result (λ taken. (if taken then Some (plan self.new) else None) ≡ with_line (plan self.old) said) }
        ensures refused { IfOk result (λ taken. taken ≡ false → plan self.new ≡ plan self.old) }
        ensures err { OnErr result (plan self.new ≡ plan self.old) }
    {
        match said {
            Line::Skip => Ok(true),
            Line::Setting(line) => Ok(self.push_setting(line)),
            Line::Policy(line) => self.push_policy(line),
            Line::Place(line) => self.push_place(alloc, line),
        }
    }

    fn push_setting(&mut self, line: SettingLine) -> bool
        requires { IsSettingInRange line }
        ensures taken { (if result then Some (plan self.new) else None) ≡ with_setting (plan self.old) line }
        ensures refused { result ≡ false → plan self.new ≡ plan self.old }
    {
        if self.is_listening() {
            return false;
        }
        self.set(line);
        true
    }

    fn set(&mut self, line: SettingLine)
        requires { IsSettingInRange line }
        ensures { plan self.new ≡ and_setting (plan self.old) line }
    {
        let settings = &mut self.settings;
        match line {
            SettingLine::Workers(count) => settings.workers = count,
            SettingLine::Ring(places) => settings.ring = places,
            SettingLine::Retry(most) => settings.retry_limit = most as u64,
            SettingLine::Limit(most) => settings.limit = most as u64,
            SettingLine::Head(size) => settings.limits = Limits::new(size, settings.limits.body()),
            SettingLine::Body(size) => settings.limits = Limits::new(settings.limits.head(), size),
            SettingLine::Cut(size) => settings.cut = size,
            SettingLine::Handle(handler) => settings.handler = handler,
            SettingLine::KeepAliveOff => settings.keeps_alive = false,
            SettingLine::ExpectRefuse => settings.refuses_expectations = true,
            SettingLine::UpgradeEcho => settings.echoes_upgrades = true,
        }
    }

    // Whether there is a listener.
    fn is_listening(&self) -> bool
        ensures { result ≡ is_listening (plan self.now) }
    {
        !self.listeners.is_empty()
    }

    // Whether the policy line can't stand here.
    fn refuses(&self, line: &PolicyLine) -> bool
        ensures { result ≡ (is_listening (plan self.now) || (is_permissive line.now && (plan self.now).has_policy)) }
    {
        self.is_listening() || (line.is_permissive() && !self.policy.as_slice().is_empty())
    }

    #[tactic(auto, using(crate::proofs::Building::one_line_more))]
    fn push_policy(&mut self, line: PolicyLine) -> Result<bool, AllocError>
        ensures taken { IfOk result (λ taken. (if taken then Some (plan self.new) else None) ≡ with_policy (plan self.old) line) }
        ensures refused { IfOk result (λ taken. taken ≡ false → plan self.new ≡ plan self.old) }
        ensures err { OnErr result (plan self.new ≡ plan self.old) }
    {
        if self.refuses(&line) {
            return Ok(false);
        }
        self.policy.push(line)?;
        Ok(true)
    }

    fn push_place(&mut self, alloc: Global, line: PlaceLine) -> Result<bool, AllocError>
        requires { IsPlaceInRange line }
        ensures taken { IfOk result (λ taken. (if taken then Some (plan self.new) else None) ≡ with_place (plan self.old) line) }
        ensures refused { IfOk result (λ taken. taken ≡ false → plan self.new ≡ plan self.old) }
        ensures err { OnErr result (plan self.new ≡ plan self.old) }
    {
        match line {
            PlaceLine::Listener => self.push_listener(alloc),
            PlaceLine::Conn(peer) => self.push_connection(alloc, peer),
            PlaceLine::Late => self.push_coming(Coming::Late),
            PlaceLine::Skip => self.push_coming(Coming::Skip),
            PlaceLine::FailListener => self.push_coming(Coming::Failure),
            PlaceLine::Give(bytes) => self.push_bytes(alloc, &bytes),
            PlaceLine::Wait => self.push_read(ReadStep::NotYet),
            PlaceLine::Take(most) => self.push_write(WriteStep::Take(most)),
            PlaceLine::WriteWait => self.push_write(WriteStep::NotYet),
            PlaceLine::FailRead => self.push_read(ReadStep::Fail),
            PlaceLine::FailWrite => self.push_write(WriteStep::Fail),
        }
    }

    fn push_listener(&mut self, alloc: Global) -> Result<bool, AllocError>
        ensures taken { IfOk result (λ taken. (if taken then Some (plan self.new) else None) ≡ with_listener (plan self.old)) }
        ensures refused { IfOk result (λ taken. taken ≡ false → plan self.new ≡ plan self.old) }
        ensures err { OnErr result (plan self.new ≡ plan self.old) }
    {
        if self.listeners.len() >= MAX_LISTENERS {
            return Ok(false);
        }
        self.listeners.push(ScriptListener::new(alloc))?;
        Ok(true)
    }

    // How many connections there are.
    fn connection_count(&self) -> usize
        ensures { result ≡ connection_count (plan self.now) }
    {
        let mut count = 0;
        for listener in &self.listeners {
            count += listener.connections().len();
        }
        count
    }

    fn push_connection(&mut self, alloc: Global, peer: Peer) -> Result<bool, AllocError>
        ensures taken { IfOk result (λ taken. (if taken then Some (plan self.new) else None) ≡ with_connection (plan self.old) peer) }
        ensures refused { IfOk result (λ taken. taken ≡ false → plan self.new ≡ plan self.old) }
        ensures err { OnErr result (plan self.new ≡ plan self.old) }
    {
        if self.connection_count() >= MAX_CONNECTIONS {
            return Ok(false);
        }
        let Some(listener) = self.listeners.last_mut() else {
            return Ok(false);
        };
        listener.push_connection(alloc, peer)?;
        Ok(true)
    }

    fn push_coming(&mut self, coming: Coming) -> Result<bool, AllocError>
        requires { is_connection coming ≡ false }
        ensures taken { IfOk result (λ taken. (if taken then Some (plan self.new) else None) ≡ with_coming (plan self.old) coming) }
        ensures refused { IfOk result (λ taken. taken ≡ false → plan self.new ≡ plan self.old) }
        ensures err { OnErr result (plan self.new ≡ plan self.old) }
    {
        let Some(listener) = self.listeners.last_mut() else {
            return Ok(false);
        };
        listener.push_coming(coming)?;
        Ok(true)
    }

    fn push_bytes(&mut self, alloc: Global, bytes: &Octets) -> Result<bool, AllocError>
        ensures taken { IfOk result (λ taken. (if taken then Some (plan self.new) else None) ≡ with_bytes (plan self.old) bytes.now) }
        ensures refused { IfOk result (λ taken. taken ≡ false → plan self.new ≡ plan self.old) }
        ensures err { OnErr result (plan self.new ≡ plan self.old) }
    {
        let cut = self.settings.cut;
        let Some(listener) = self.listeners.last_mut() else {
            return Ok(false);
        };
        listener.push_bytes(alloc, cut, bytes.as_bytes())
    }

    fn push_read(&mut self, step: ReadStep) -> Result<bool, AllocError>
        requires { bytes_of step ≡ [] }
        ensures taken { IfOk result (λ taken. (if taken then Some (plan self.new) else None) ≡ with_read (plan self.old) step) }
        ensures refused { IfOk result (λ taken. taken ≡ false → plan self.new ≡ plan self.old) }
        ensures err { OnErr result (plan self.new ≡ plan self.old) }
    {
        let Some(listener) = self.listeners.last_mut() else {
            return Ok(false);
        };
        listener.push_read(step)
    }

    fn push_write(&mut self, step: WriteStep) -> Result<bool, AllocError>
        requires { TakesSome step }
        ensures taken { IfOk result (λ taken. (if taken then Some (plan self.new) else None) ≡ with_write (plan self.old) step) }
        ensures refused { IfOk result (λ taken. taken ≡ false → plan self.new ≡ plan self.old) }
        ensures err { OnErr result (plan self.new ≡ plan self.old) }
    {
        let Some(listener) = self.listeners.last_mut() else {
            return Ok(false);
        };
        listener.push_write(step)
    }
}
