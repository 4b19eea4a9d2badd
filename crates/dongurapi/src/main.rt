//! Serves the connections of a script or connections that it makes over links in memory, or those that come to an address over
//! sockets, and prints a report or a summary.
#![tactic(auto)]

ghost use Rattle.std.specs.Prelude.{◌≡◌, None, Some};
ghost use Rattle.server_program.specs.Forms.{form_of};
ghost use Rattle.server_program.specs.declared.form.Form.{Form};

mod announcing;

use crate::announcing::Announcing;
use command_line::{print, words_of};
use server_edge::{ReactorHost, SystemClock, ThreadSpawner};
use server_program::{Form, Streams, form_of, run};
use server_reactor::Reactor;
use server_sockets::MioBinder;
use service_core::Octets;
use std::alloc::{AllocError, Global};
use std::process::ExitCode;
use std::sync::Arc;

const HELP: &str = "\
dongurapi serves connections over HTTP/1.1 under a policy on cross-origin requests.

usage: dongurapi replay < SCRIPT
       dongurapi listen ADDR N
       dongurapi generate N K
       dongurapi --help | --version

replay   reads a script of connections from standard input, serves each over a link in memory, by
         workers on threads, and prints what was written on it. Lines of a script: `listener`; `conn PEER`
         with PEER as `10.0.0.1:5000` or `local`; and `give TEXT` with the escapes \\r \\n \\t \\\" \\\\ \\xHH.
         Before the first listener: `workers N`, `limit N`, `ring N`, `retry N`, `handler hello|echo|peer|fail`,
         and lines of the policy: `permissive`, `any-origin`, `origin T`, `rule always|dnt|rust-lang`,
         `any-method`, `methods A ..`, `any-header`, `header T`, `headers A ..`, `expose-any`, `expose A ..`,
         `max-age N|none`, `wildcard`, `credentials`, `no-vary`, `no-preflight`, `block`. Empty lines and
         lines that begin with `#` are skipped. docs/SCRIPT.md has every line.

listen   binds the TCP address ADDR, as `127.0.0.1:8080`, and serves the connections that come there, until
         N have come, from 1 to 1,000,000: `Hello world!` to every request, under the permissive policy, on
         two workers. Standard error tells where it listens, or why it does not.

generate makes N connections, from 1 to 100,000, from the seed K, from 0 to 2,147,483,647, serves them on
         four workers, and prints how many connections, requests, served connections and bytes of
         answers there were. The same numbers make the same bytes.

status   0 served; 2 the words are none of these; 3 a line of the script is not understood, or the
         script is too long; 4 the script names no listener, or its policy is refused; 5 a read failed;
         6 a write failed; 7 memory ran out; 8 a worker could not be started; 9 the address was refused";

const VERSION: &str = "dongurapi 0.1.0";

const OUT_OF_MEMORY: &str = "out of memory";

// The words behind the program's name. Where they cannot be had, as where one is not UTF-8, there are none, which is no form.
fn given_words(rt: &HostRuntime, alloc: Global) -> Result<Vec<Octets>, AllocError> {
    let mut words = Vec::new(alloc);
    for word in words_of(rt)? {
        words.push(Octets::from_vec(word.into_bytes()))?;
    }
    Ok(words)
}

// What the one word asks for beside the forms of `run`, which it leaves alone.
fn asked(words: &[Octets]) -> Option<&'static str>
    ensures { (form : Form) → form_of words.now ≡ Some form → result ≡ None }
{
    if form_of(words).is_some() {
        return None;
    }
    match words {
        [word] if word.as_bytes() == b"--help".as_slice() => Some(HELP),
        [word] if word.as_bytes() == b"--version".as_slice() => Some(VERSION),
        _ => None,
    }
}

// What the sockets and the threads of a server share, where the words ask for one. Where the system has none to give, each of them
// asks for news again and again.
fn reactor_for(rt: &HostRuntime, alloc: Global, words: &[Octets]) -> Option<Arc<Reactor>> {
    match form_of(words) {
        Some(Form::Listen { .. }) => Arc::new(alloc, Reactor::new(rt, alloc).ok()?).ok(),
        _ => None,
    }
}

fn share(reactor: &Option<Arc<Reactor>>) -> Option<Arc<Reactor>> {
    match reactor {
        Some(reactor) => Arc::try_clone(reactor).ok(),
        None => None,
    }
}

fn host_over(rt: HostRuntime, reactor: Option<Arc<Reactor>>) -> ReactorHost<HostRuntime> {
    match reactor {
        Some(reactor) => ReactorHost::over(rt, reactor),
        None => ReactorHost::new(rt),
    }
}

fn spawner_over(alloc: Global, reactor: Option<Arc<Reactor>>) -> Result<ThreadSpawner, AllocError> {
    match reactor {
        Some(reactor) => ThreadSpawner::over(alloc, reactor),
        None => ThreadSpawner::new(alloc),
    }
}

fn binder_over(reactor: Option<Arc<Reactor>>) -> MioBinder {
    match reactor {
        Some(reactor) => MioBinder::over(reactor),
        None => MioBinder::new(),
    }
}

fn main(rt: HostRuntime) -> ExitCode {
    let alloc = rt.alloc();
    let Ok(words) = given_words(&rt, alloc) else {
        return ExitCode::from(print(&rt, OUT_OF_MEMORY, 7));
    };
    if let Some(text) = asked(&words) {
        return ExitCode::from(print(&rt, text, 0));
    }
    let reactor = reactor_for(&rt, alloc, &words);
    let Ok(mut spawner) = spawner_over(alloc, share(&reactor)) else {
        return ExitCode::from(print(&rt, OUT_OF_MEMORY, 7));
    };
    let host = host_over(rt, share(&reactor));
    let mut clock = SystemClock::new(&host);
    let mut source = Streams::new(&host);
    let mut sink = Streams::new(&host);
    let mut binder = Announcing::new(binder_over(reactor));
    ExitCode::from(run(
        &host,
        alloc,
        &words,
        &mut source,
        &mut sink,
        &mut clock,
        &mut spawner,
        &mut binder,
    ))
}
