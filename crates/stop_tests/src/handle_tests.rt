//! Runs that are told by a handle, or by a signal.
use futures::Future;
use futures::task::Context;
use futures::test::MockTask;
use serve_stage::Answer::{Give, NotYet, Wait};
use serve_stage::{Answer, Begun, Countdown, EndAfter, Log, PLAIN, Plan, served_by};
use server::{Server, ServerBuilder};
use server_commands::{Commands, GracefulShutdownSignal, Next, NoCommands, Reply, ServerHandle};
use server_run::Host;
use std::alloc::{AllocError, AllocGlobal, Global};
use std::io;
use std::random::RandomSource;
use std::sync::Arc;
use std::sync::atomic::AtomicU64;
use std::sync::atomic::Ordering::SeqCst;
use std::test::Fail;

// Time stands still, so no stop takes too long.
const STILL: Plan = Plan { step: 0, ..PLAIN };

// Whether a command has been carried out.
fn is_done(task: &MockTask, reply: &mut Reply) -> bool {
    task.poll(reply).is_ready()
}

// Whether a graceful stop was given.
fn is_stopping(task: &MockTask, signal: &mut GracefulShutdownSignal) -> bool {
    task.poll(signal).is_ready()
}

// Whether a run by these commands comes to this.
fn comes_to<Ho: Host + 'static, Co: Commands>(
    rt: &Ho,
    alloc: Global,
    answers: &[&[Answer]],
    server: Server<EndAfter>,
    commands: &mut Co,
    wanted: &[u8],
) -> Result<bool, AllocError> {
    let log: Log = served_by(rt, alloc, &STILL, answers, server, commands)?;
    log.is(wanted)
}

// A server of the builder that counts nowhere.
fn server_of(alloc: Global, builder: ServerBuilder) -> Result<Server<EndAfter>, AllocError> {
    let begun = Arc::new(alloc, AtomicU64::new(0))?;
    Ok(builder.run(STILL.factory(begun, None)))
}

// Whether what is told a server after its run is replied to at once.
fn replies_at_once<Ho: Host>(
    rt: &Ho,
    task: &MockTask,
    handle: &ServerHandle,
) -> Result<bool, AllocError> {
    let mut later = handle.resume(rt)?;
    Ok(is_done(task, &mut later))
}

// Asks a source of commands once, which makes room for the flags of four replies: so the commands that are posted come at the first
// ask behind it, also where one allocation is refused.
fn make_room<Co: Commands>(task: &MockTask, commands: &mut Co) {
    let _: Next = task.enter(|cx: &mut Context<'_>| commands.next(cx));
}

// Whether a pause and a stop that are told a server before its run are replied to once it has served, and what is told it later at
// once.
fn replies_once_served<Ho>(rt: &Ho) -> io::Result<bool>
where
    Ho: Host + AllocGlobal + RandomSource + 'static,
{
    let task = MockTask::new(rt)?;
    let builder = STILL.builder(rt.alloc())?;
    let mut commands = builder.handle_commands(rt)?;
    make_room(&task, &mut commands);
    let server = server_of(rt.alloc(), builder)?;
    let handle = server.handle()?;
    let mut pause = handle.pause(rt)?;
    let early = is_done(&task, &mut pause);
    let mut stop = handle.stop(rt, true)?;
    let wanted = b"0: open\nentries 0, stopped, then 0";
    let stopped = comes_to(rt, rt.alloc(), &[&[Give(1)]], server, &mut commands, wanted)?;
    let replied = is_done(&task, &mut pause) && is_done(&task, &mut stop);
    Ok(!early && stopped && replied && replies_at_once(rt, &task, &handle)?)
}

#[test]
fn commands_of_a_handle_are_replied_to(rt: HostRuntime) -> Result<(), Fail> {
    assert!(rt; replies_once_served(&rt)?);
    Ok(())
}

// Whether a signal that comes after so many polls stops a run gracefully.
fn a_signal_stops<Ho>(rt: &Ho, polls: u32) -> io::Result<bool>
where
    Ho: Host + AllocGlobal + RandomSource + 'static,
{
    let task = MockTask::new(rt)?;
    let builder = STILL.builder(rt.alloc())?;
    let mut commands = builder.shutdown_signal(Countdown::new(polls), NoCommands::new())?;
    let mut graceful = builder.graceful_shutdown_signal()?;
    let early = is_stopping(&task, &mut graceful);
    let server = server_of(rt.alloc(), builder)?;
    let wanted = b"0: open\nentries 0, stopped, then not yet";
    let stopped = comes_to(
        rt,
        rt.alloc(),
        &[&[Wait(900)]],
        server,
        &mut commands,
        wanted,
    )?;
    Ok(!early && stopped && is_stopping(&task, &mut graceful))
}

#[test]
fn a_signal_stops_a_server_gracefully(rt: HostRuntime) -> Result<(), Fail> {
    assert!(rt; a_signal_stops(&rt, 0)?);
    assert!(rt; a_signal_stops(&rt, 9)?);
    Ok(())
}

// Whether services that wait for a graceful stop end what they serve once a signal gave one.
fn services_hear_of_a_stop<Ho: Host + 'static>(rt: &Ho, alloc: Global) -> Result<bool, AllocError> {
    let builder = STILL.builder(alloc)?;
    let begun = Arc::new(alloc, AtomicU64::new(0))?;
    let signal = Begun::new(Arc::try_clone(&begun)?, 5);
    let mut commands = builder.shutdown_signal(signal, NoCommands::new())?;
    let until = builder.graceful_shutdown_signal()?;
    let server = builder.run(STILL.factory(Arc::try_clone(&begun)?, Some(until)));
    let answers: [&[Answer]; 2] = [&[Give(3)], &[NotYet, Give(2)]];
    let wanted =
        b"0: served 0 1 2 ended\n1: upgraded 101 102 ended\nentries 5, stopped, then none, then none";
    let served = comes_to(rt, alloc, &answers, server, &mut commands, wanted)?;
    if begun.load(SeqCst) != 5 {
        return Err(AllocError);
    }
    Ok(served)
}

#[test]
fn services_that_wait_for_a_graceful_stop_end_then(rt: HostRuntime) -> Result<(), Fail> {
    assert!(rt; services_hear_of_a_stop(&rt, rt.alloc())?);
    Ok(())
}
