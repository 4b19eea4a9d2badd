//! Sources of commands and replies, asked by hand.
use futures::task::Context;
use futures::test::MockTask;
use server_commands::{
    CommandQueue, Commands, GracefulShutdownSignal, HandleCommands, Next, Reply, ServerHandle,
};
use server_core::Command;
use std::alloc::{AllocError, AllocGlobal};
use std::random::RandomSource;
use std::sync::Wait;
use std::thread::Threads;

/// What the tests take of the system.
pub(crate) trait TestHost: AllocGlobal
    + RandomSource
    + Threads
    + Wait
    + Clone
    + Drop
    + Send
    + 'static {}

impl<R> TestHost for R
where
    R: AllocGlobal + RandomSource + Threads + Wait + Clone + Drop + Send + 'static,
{}

/// What gives the commands of a queue to which none was posted yet, asked once. Such an ask makes room for the flags of four
/// replies, so a command that is posted comes at the first ask behind it, also where one allocation is refused.
pub(crate) fn commands_of<Ho: TestHost>(
    rt: &Ho,
    task: &MockTask,
    queue: &CommandQueue,
) -> Result<HandleCommands<Ho>, AllocError> {
    let mut commands = queue.commands(rt)?;
    let _: Next = ask(task, &mut commands);
    Ok(commands)
}

/// What a source answers now.
pub(crate) fn ask<Co: Commands>(task: &MockTask, commands: &mut Co) -> Next {
    task.enter(|cx: &mut Context<'_>| commands.next(cx))
}

/// Whether these are the next answers, in order.
pub(crate) fn answers<Co: Commands>(task: &MockTask, commands: &mut Co, expected: &[Next]) -> bool {
    for next in expected {
        if ask(task, commands) != *next {
            return false;
        }
    }
    true
}

/// Whether nothing has come of a source, so often in a row, and it asks for another poll each time.
pub(crate) fn waits<Co: Commands>(task: &MockTask, commands: &mut Co, times: u32) -> bool {
    for _ in 0..times {
        if ask(task, commands) != Next::NotYet || !task.is_woken() {
            return false;
        }
    }
    true
}

/// Whether the command has been carried out. Where it has not, another poll is asked for.
pub(crate) fn is_done(task: &MockTask, reply: &mut Reply) -> bool {
    task.poll(reply).is_ready() || !task.is_woken()
}

/// Whether a graceful stop was given. Where none was, another poll is asked for.
pub(crate) fn is_stopping(task: &MockTask, signal: &mut GracefulShutdownSignal) -> bool {
    task.poll(signal).is_ready() || !task.is_woken()
}

/// Posts a command.
pub(crate) fn post<W: Wait>(
    rt: &W,
    handle: &ServerHandle,
    command: Command,
) -> Result<Reply, AllocError> {
    match command {
        Command::Pause => handle.pause(rt),
        Command::Resume => handle.resume(rt),
        Command::Stop { graceful } => handle.stop(rt, graceful),
    }
}
