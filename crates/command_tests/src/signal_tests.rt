//! Signals that a stop is to come, and signals that one was given.
use crate::asked::{TestHost, answers, ask, commands_of, is_done, is_stopping, waits};
use crate::countdown::Countdown;
use futures::future;
use futures::test::MockTask;
use server_commands::{CommandQueue, CommandStep, Commands, Next, ScriptCommands};
use server_core::Command;
use std::io;
use std::test::Fail;

// Whether a graceful stop makes each clone ready, those made before and after, and a forced stop none.
fn tells_of_graceful_stops<Ho: TestHost>(rt: &Ho) -> io::Result<bool> {
    let task = MockTask::new(rt)?;
    let queue = CommandQueue::new(rt.alloc())?;
    let handle = queue.handle()?;
    let mut commands = commands_of(rt, &task, &queue)?;
    let mut first = queue.graceful_shutdown_signal()?;
    let mut clone = first.clone()?;
    handle.stop(rt, false)?;
    handle.pause(rt)?;
    handle.stop(rt, true)?;
    let none = !is_stopping(&task, &mut first);
    let forced = answers(
        &task,
        &mut commands,
        &[
            Next::Given(Command::Stop { graceful: false }),
            Next::Given(Command::Pause),
        ],
    );
    let still = !is_stopping(&task, &mut first) && !is_stopping(&task, &mut clone);
    let graceful = answers(
        &task,
        &mut commands,
        &[Next::Given(Command::Stop { graceful: true })],
    );
    let mut later = clone.clone()?;
    let ready = is_stopping(&task, &mut first)
        && is_stopping(&task, &mut clone)
        && is_stopping(&task, &mut later)
        && is_stopping(&task, &mut queue.graceful_shutdown_signal()?);
    Ok(none && forced && still && graceful && ready && is_stopping(&task, &mut first))
}

#[test]
fn graceful_signals_are_ready_after_a_graceful_stop_alone(rt: HostRuntime) -> Result<(), Fail> {
    assert!(rt; tells_of_graceful_stops(&rt)?);
    Ok(())
}

// Whether a signal that has come gives one graceful stop, and then the other source answers.
fn stops_once<Ho: TestHost>(rt: &Ho) -> io::Result<bool> {
    let task = MockTask::new(rt)?;
    let queue = CommandQueue::new(rt.alloc())?;
    let mut stopping = queue.graceful_shutdown_signal()?;
    let steps = vec![in rt.alloc(); CommandStep::Give(Command::Resume), CommandStep::NotYet]?;
    let script = ScriptCommands::new(rt.alloc(), steps);
    let mut commands = queue.shutdown_signal(future::ready(()), script)?;
    let none = !is_stopping(&task, &mut stopping);
    let stop = ask(&task, &mut commands) == Next::Given(Command::Stop { graceful: true });
    commands.settled();
    let told = is_stopping(&task, &mut stopping);
    let passed = answers(
        &task,
        &mut commands,
        &[Next::Given(Command::Resume), Next::NotYet],
    );
    Ok(none && stop && told && passed && answers(&task, &mut commands, &[Next::Ended, Next::Ended]))
}

#[test]
fn a_signal_gives_one_graceful_stop(rt: HostRuntime) -> Result<(), Fail> {
    assert!(rt; stops_once(&rt)?);
    Ok(())
}

// Whether the other source answers until the signal comes, but its end counts as if none had come yet.
fn end_waits_for_the_signal<Ho: TestHost>(rt: &Ho) -> io::Result<bool> {
    let task = MockTask::new(rt)?;
    let queue = CommandQueue::new(rt.alloc())?;
    let steps = vec![in rt.alloc(); CommandStep::Give(Command::Pause)]?;
    let script = ScriptCommands::new(rt.alloc(), steps);
    let mut commands = queue.shutdown_signal(Countdown::new(3), script)?;
    let passed = answers(&task, &mut commands, &[Next::Given(Command::Pause)]);
    let held = waits(&task, &mut commands, 2);
    let stop = answers(
        &task,
        &mut commands,
        &[Next::Given(Command::Stop { graceful: true })],
    );
    Ok(passed && held && stop && answers(&task, &mut commands, &[Next::Ended, Next::Ended]))
}

#[test]
fn an_end_waits_for_the_signal(rt: HostRuntime) -> Result<(), Fail> {
    assert!(rt; end_waits_for_the_signal(&rt)?);
    Ok(())
}

// Whether the replies to a handle's commands that were given are ready once all is settled, behind the signal's stop too.
fn settles_all_given<Ho: TestHost>(rt: &Ho) -> io::Result<bool> {
    let task = MockTask::new(rt)?;
    let queue = CommandQueue::new(rt.alloc())?;
    let handle = queue.handle()?;
    let posted = commands_of(rt, &task, &queue)?;
    let mut commands = queue.shutdown_signal(Countdown::new(1), posted)?;
    let mut pause = handle.pause(rt)?;
    let mut resume = handle.resume(rt)?;
    let first = ask(&task, &mut commands) == Next::Given(Command::Pause);
    let stop = ask(&task, &mut commands) == Next::Given(Command::Stop { graceful: true });
    let none = !is_done(&task, &mut pause);
    commands.settled();
    let one = is_done(&task, &mut pause) && !is_done(&task, &mut resume);
    let second = ask(&task, &mut commands) == Next::Given(Command::Resume);
    let still = !is_done(&task, &mut resume);
    commands.settled();
    Ok(first && stop && none && one && second && still && is_done(&task, &mut resume))
}

#[test]
fn what_was_given_before_a_stop_of_the_signal_is_settled_with_it(
    rt: HostRuntime,
) -> Result<(), Fail> {
    assert!(rt; settles_all_given(&rt)?);
    Ok(())
}
