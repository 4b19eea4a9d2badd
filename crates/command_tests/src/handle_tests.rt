//! Commands that handles post, and their replies.
use crate::asked::{TestHost, answers, ask, commands_of, is_done, post, waits};
use futures::test::MockTask;
use server_commands::{CommandQueue, Commands, Next};
use server_core::Command;
use std::io;
use std::test::Fail;

// Whether the commands of two handles come in the order of posting, and no end behind them.
fn come_in_order<Ho: TestHost>(rt: &Ho) -> io::Result<bool> {
    let task = MockTask::new(rt)?;
    let queue = CommandQueue::new(rt.alloc())?;
    let mut commands = queue.commands(rt)?;
    let none = waits(&task, &mut commands, 2);
    let handle = queue.handle()?;
    let other = handle.clone()?;
    handle.pause(rt)?;
    other.stop(rt, false)?;
    handle.resume(rt)?;
    other.stop(rt, true)?;
    drop(handle);
    drop(other);
    let came = answers(
        &task,
        &mut commands,
        &[
            Next::Given(Command::Pause),
            Next::Given(Command::Stop { graceful: false }),
            Next::Given(Command::Resume),
            Next::Given(Command::Stop { graceful: true }),
        ],
    );
    Ok(none && came && waits(&task, &mut commands, 3))
}

#[test]
fn commands_of_handles_come_in_order_and_never_end(rt: HostRuntime) -> Result<(), Fail> {
    assert!(rt; come_in_order(&rt)?);
    Ok(())
}

// Whether a reply waits until its command has been carried out, and is ready from then on.
fn replies_once_settled<Ho: TestHost>(rt: &Ho) -> io::Result<bool> {
    let task = MockTask::new(rt)?;
    let queue = CommandQueue::new(rt.alloc())?;
    let handle = queue.handle()?;
    let mut commands = commands_of(rt, &task, &queue)?;
    let mut reply = handle.pause(rt)?;
    let posted = is_done(&task, &mut reply);
    commands.settled();
    let early = is_done(&task, &mut reply);
    let given = ask(&task, &mut commands) == Next::Given(Command::Pause);
    let before = is_done(&task, &mut reply);
    commands.settled();
    let after = is_done(&task, &mut reply);
    let none = waits(&task, &mut commands, 1);
    Ok(!posted && !early && given && !before && after && none && is_done(&task, &mut reply))
}

#[test]
fn a_reply_waits_until_its_command_is_settled(rt: HostRuntime) -> Result<(), Fail> {
    assert!(rt; replies_once_settled(&rt)?);
    Ok(())
}

// Whether each of two stops has a reply of its own.
fn stops_reply_apart<Ho: TestHost>(rt: &Ho) -> io::Result<bool> {
    let task = MockTask::new(rt)?;
    let queue = CommandQueue::new(rt.alloc())?;
    let handle = queue.handle()?;
    let mut commands = commands_of(rt, &task, &queue)?;
    let mut first = handle.stop(rt, true)?;
    let mut second = handle.stop(rt, true)?;
    let one = ask(&task, &mut commands) == Next::Given(Command::Stop { graceful: true });
    commands.settled();
    let apart = is_done(&task, &mut first) && !is_done(&task, &mut second);
    let two = ask(&task, &mut commands) == Next::Given(Command::Stop { graceful: true });
    let still = !is_done(&task, &mut second);
    commands.settled();
    Ok(one && apart && two && still && is_done(&task, &mut second))
}

#[test]
fn a_second_stop_has_a_reply_of_its_own(rt: HostRuntime) -> Result<(), Fail> {
    assert!(rt; stops_reply_apart(&rt)?);
    Ok(())
}

// Whether these commands, of which none is settled before all are given, have replies that become ready by one `settled`.
fn reply_together<Ho: TestHost>(rt: &Ho, first: Command, second: Command) -> io::Result<bool> {
    let task = MockTask::new(rt)?;
    let queue = CommandQueue::new(rt.alloc())?;
    let handle = queue.handle()?;
    let mut commands = commands_of(rt, &task, &queue)?;
    let mut one = post(rt, &handle, first)?;
    let mut other = post(rt, &handle, second)?;
    let given = answers(
        &task,
        &mut commands,
        &[Next::Given(first), Next::Given(second), Next::NotYet],
    );
    let none = !is_done(&task, &mut one) && !is_done(&task, &mut other);
    commands.settled();
    Ok(given && none && is_done(&task, &mut one) && is_done(&task, &mut other))
}

#[test]
fn a_stop_and_a_pause_behind_it_are_settled_together(rt: HostRuntime) -> Result<(), Fail> {
    assert!(rt; reply_together(&rt, Command::Stop { graceful: true }, Command::Pause)?);
    Ok(())
}

#[test]
fn two_stops_are_settled_together(rt: HostRuntime) -> Result<(), Fail> {
    let stop = Command::Stop { graceful: false };
    assert!(rt; reply_together(&rt, stop, stop)?);
    Ok(())
}

// Whether the replies of a closed queue are ready, to what waited and to what is posted later, and its source gives none of them. The
// reply to a command that was given before waits until that is settled.
fn closes<Ho: TestHost>(rt: &Ho) -> io::Result<bool> {
    let task = MockTask::new(rt)?;
    let queue = CommandQueue::new(rt.alloc())?;
    let handle = queue.handle()?;
    let mut commands = commands_of(rt, &task, &queue)?;
    let mut given = handle.pause(rt)?;
    let mut waiting = handle.stop(rt, true)?;
    let first = ask(&task, &mut commands) == Next::Given(Command::Pause);
    let none = !is_done(&task, &mut given) && !is_done(&task, &mut waiting);
    queue.close(rt);
    let closed = is_done(&task, &mut waiting) && !is_done(&task, &mut given);
    let mut later = handle.stop(rt, false)?;
    let at_once = is_done(&task, &mut later) && is_done(&task, &mut queue.handle()?.resume(rt)?);
    let gives_none = waits(&task, &mut commands, 3);
    commands.settled();
    Ok(first && none && closed && at_once && gives_none && is_done(&task, &mut given))
}

#[test]
fn a_closed_queue_replies_at_once_and_gives_none(rt: HostRuntime) -> Result<(), Fail> {
    assert!(rt; closes(&rt)?);
    Ok(())
}
