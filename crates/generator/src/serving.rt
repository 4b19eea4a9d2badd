//! The script that serves what is made.
ghost use Rattle.std.specs.Prelude.{◌≡◌, false, IfOk, IsSome, OnOk, Some};
ghost use Rattle.script.specs.Plan.{plan};
ghost use Rattle.script.specs.PolicyText.{is_permissive};
ghost use Rattle.script.specs.Ranges.{IsInRange, IsSettingInRange};
ghost use Rattle.script.specs.Script.{and_setting, is_listening, with_line};
ghost use Rattle.generator.specs.Generator.{generated};
ghost use Rattle.generator.specs.Serving.{and_policy, with_requests};

use script::{Handler, Line, PlaceLine, PolicyLine, Script, SettingLine};
use service_core::{Octets, Peer};
use std::alloc::{AllocError, Global};

/// The host 10.0.0.1.
const HOST: u32 = 0x0A00_0001;

/// A script with one listener, to which no connection comes.
pub(crate) fn empty_script(alloc: Global) -> Result<Script, AllocError>
    ensures { IfOk result (λ script. plan script ≡ generated 0 0) }
{
    let mut script = Script::new(alloc);
    set(alloc, &mut script, SettingLine::Workers(4))?;
    set(alloc, &mut script, SettingLine::Limit(8))?;
    set(alloc, &mut script, SettingLine::Ring(4))?;
    set(alloc, &mut script, SettingLine::Cut(7))?;
    set(alloc, &mut script, SettingLine::Handle(Handler::Echo))?;
    allow(alloc, &mut script, PolicyLine::AnyOrigin)?;
    allow(alloc, &mut script, PolicyLine::AnyMethod)?;
    allow(alloc, &mut script, PolicyLine::AnyHeader)?;
    push(alloc, &mut script, Line::Place(PlaceLine::Listener))?;
    Ok(script)
}

/// One more connection comes, which gives these bytes.
pub(crate) fn push_connection(
    alloc: Global,
    script: &mut Script,
    bytes: Octets,
) -> Result<(), AllocError>
    requires { IsSome (with_requests (plan script.old) bytes) }
    ensures { OnOk result (Some (plan script.new) ≡ with_requests (plan script.old) bytes) }
{
    let peer = Peer::V4 {
        host: HOST,
        port: 1000,
    };
    push(alloc, script, Line::Place(PlaceLine::Conn(peer)))?;
    push(alloc, script, Line::Place(PlaceLine::Give(bytes)))
}

// What the line sets, before there is a listener.
fn set(alloc: Global, script: &mut Script, line: SettingLine) -> Result<(), AllocError>
    requires range { IsSettingInRange line }
    requires early { is_listening (plan script.old) ≡ false }
    ensures { OnOk result (plan script.new ≡ and_setting (plan script.old) line) }
{
    push(alloc, script, Line::Setting(line))
}

// One more policy line, before there is a listener.
fn allow(alloc: Global, script: &mut Script, line: PolicyLine) -> Result<(), AllocError>
    requires early { is_listening (plan script.old) ≡ false }
    requires some { is_permissive line ≡ false }
    ensures { OnOk result (plan script.new ≡ and_policy (plan script.old) line) }
{
    push(alloc, script, Line::Policy(line))
}

// Takes a line that can stand here.
fn push(alloc: Global, script: &mut Script, line: Line) -> Result<(), AllocError>
    requires range { IsInRange line }
    requires stands { IsSome (with_line (plan script.old) line) }
    ensures { OnOk result (Some (plan script.new) ≡ with_line (plan script.old) line) }
{
    if !script.push(alloc, line)? {
        unreachable!();
    }
    Ok(())
}
