//! Commands in memory.
use crate::asked::{TestHost, answers, ask, waits};
use futures::test::MockTask;
use server_commands::{CommandStep, Commands, Next, ScriptCommands};
use server_core::Command;
use std::io;
use std::test::Fail;

// Whether the steps come in order, and then the end.
fn come_in_order<Ho: TestHost>(rt: &Ho) -> io::Result<bool> {
    let task = MockTask::new(rt)?;
    let steps = vec![in rt.alloc();
        CommandStep::Give(Command::Pause),
        CommandStep::NotYet,
        CommandStep::Give(Command::Resume),
        CommandStep::Give(Command::Stop { graceful: false }),
        CommandStep::Give(Command::Stop { graceful: true }),
    ]?;
    let mut script = ScriptCommands::new(rt.alloc(), steps);
    let first = answers(&task, &mut script, &[Next::Given(Command::Pause)]);
    script.settled();
    let none = waits(&task, &mut script, 1);
    let rest = answers(
        &task,
        &mut script,
        &[
            Next::Given(Command::Resume),
            Next::Given(Command::Stop { graceful: false }),
            Next::Given(Command::Stop { graceful: true }),
            Next::Ended,
            Next::Ended,
        ],
    );
    script.settled();
    Ok(first && none && rest && ask(&task, &mut script) == Next::Ended)
}

#[test]
fn steps_come_in_order_and_then_the_end_for_ever(rt: HostRuntime) -> Result<(), Fail> {
    assert!(rt; come_in_order(&rt)?);
    Ok(())
}

// Whether a script with no steps ends at once.
fn has_nothing_to_say<Ho: TestHost>(rt: &Ho) -> io::Result<bool> {
    let task = MockTask::new(rt)?;
    let mut script = ScriptCommands::new(rt.alloc(), Vec::new(rt.alloc()));
    Ok(answers(&task, &mut script, &[Next::Ended, Next::Ended]))
}

#[test]
fn a_script_with_no_steps_has_ended(rt: HostRuntime) -> Result<(), Fail> {
    assert!(rt; has_nothing_to_say(&rt)?);
    Ok(())
}
