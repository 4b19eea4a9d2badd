//! What the server takes of the system.
use std::alloc::Alloc;
use std::fs::Files;
use std::io::Input;
use std::net::Net;
use std::rt::Runtime;
use std::sync::Wait;
use std::thread::Threads;

/// All that the server takes of the system. Every type that has the supertraits is a host, as `HostRuntime` and a `&` to it.
pub trait Host: Runtime
    + Files<File: Send, Dir: Send>
    + Input<Reader: Send>
    + Alloc<A: Send>
    + Threads
    + Wait
    + Net<Stream: Send, Listener: Send>
    + Send
    + Sync {}

impl<R> Host for R
where
    R: Runtime
        + Files<File: Send, Dir: Send>
        + Input<Reader: Send>
        + Alloc<A: Send>
        + Threads
        + Wait
        + Net<Stream: Send, Listener: Send>
        + Send
        + Sync,
{}
