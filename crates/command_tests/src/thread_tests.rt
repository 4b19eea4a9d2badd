//! Posts of several threads at once.
use crate::asked::{TestHost, ask, commands_of, is_done, post};
use futures::test::MockTask;
use server_commands::{CommandQueue, Commands, Next, Reply, ServerHandle};
use server_core::Command;
use std::alloc::{AllocError, Global};
use std::sync::Wait;
use std::test::Fail;
use std::{io, thread};

// How often each thread posts.
const EACH: usize = 50;

// What a thread posted, and how many of these commands have been carried out.
#[derive(Drop)]
struct Poster {
    command: Command,
    replies: Vec<Reply>,
    done: usize,
}

// Posts a command over and over, and keeps the replies in order.
fn post_all<W: Wait>(
    rt: &W,
    alloc: Global,
    handle: ServerHandle,
    command: Command,
) -> Result<Poster, AllocError> {
    let mut replies = Vec::new(alloc);
    for _ in 0..EACH {
        replies.push(post(rt, &handle, command)?)?;
    }
    Ok(Poster {
        command,
        replies,
        done: 0,
    })
}

// Four threads post, each a command of its own.
fn post_from_four<Ho: TestHost>(rt: &Ho, queue: &CommandQueue) -> Result<Vec<Poster>, AllocError> {
    let alloc = rt.alloc();
    let mut threads = Vec::new(alloc);
    for command in [
        Command::Pause,
        Command::Resume,
        Command::Stop { graceful: false },
        Command::Stop { graceful: true },
    ] {
        let handle = queue.handle()?;
        let host = rt.clone()?;
        threads.push(thread::spawn(rt, move || post_all(&host, alloc, handle, command))?)?;
    }
    let mut posters = Vec::new(alloc);
    for thread in threads {
        posters.push(thread.join(rt)?)?;
    }
    Ok(posters)
}

// Whether a reply of this poster is ready.
fn is_ready(task: &MockTask, poster: &mut Poster, place: usize) -> bool {
    match poster.replies.get_mut(place) {
        Some(reply) => is_done(task, reply),
        None => false,
    }
}

// Carries out the next command. Whether it is the next of its thread, by its reply.
fn carries_out<Co: Commands>(
    task: &MockTask,
    commands: &mut Co,
    posters: &mut Vec<Poster>,
) -> bool {
    let Next::Given(command) = ask(task, commands) else {
        return false;
    };
    for poster in posters {
        if poster.command == command {
            let place = poster.done;
            let before = is_ready(task, poster, place);
            commands.settled();
            poster.done = place.saturating_add(1);
            return !before
                && is_ready(task, poster, place)
                && !is_ready(task, poster, place.saturating_add(1));
        }
    }
    false
}

// Whether the commands of four threads come once each, those of each thread in their order.
fn come_once_in_order<Ho: TestHost>(rt: &Ho) -> io::Result<bool> {
    let task = MockTask::new(rt)?;
    let queue = CommandQueue::new(rt.alloc())?;
    let mut commands = commands_of(rt, &task, &queue)?;
    let mut posters = post_from_four(rt, &queue)?;
    for _ in 0..4 * EACH {
        if !carries_out(&task, &mut commands, &mut posters) {
            return Ok(false);
        }
    }
    Ok(
        posters.iter().all(|poster| poster.done == EACH)
            && ask(&task, &mut commands) == Next::NotYet,
    )
}

#[test]
fn posts_of_four_threads_come_once_and_in_order(rt: HostRuntime) -> Result<(), Fail> {
    assert!(rt; come_once_in_order(&rt)?);
    Ok(())
}
