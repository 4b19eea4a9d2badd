//! A host whose sleep ends at news.
use server_reactor::Reactor;
use std::alloc::{Alloc, AllocError, Allocator};
use std::env::{Env, FillError};
use std::fmt::Display;
use std::fs::{Files, Metadata, OpenOptions};
use std::io;
use std::io::{Input, Lines};
use std::net::{Net, SocketAddr};
use std::rt::Runtime;
use std::sync::{Arc, Wait};
use std::thread::Threads;
use std::time::{Clock, Duration};

/// The host that it keeps, but for the sleep of the threads that a `ThreadSpawner` over the same reactor starts: that ends at news of a
/// socket, or when the thread is wanted. It has the seat that the spawner announced before it was cloned.
#[derive(Drop)]
pub struct ReactorHost<H> {
    inner: H,
    reactor: Option<Arc<Reactor>>,
    seat: Option<usize>,
}

impl<H> ReactorHost<H> {
    /// The host as it is, with no reactor.
    pub fn new(inner: H) -> ReactorHost<H> {
        ReactorHost {
            inner,
            reactor: None,
            seat: None,
        }
    }

    /// The host with this reactor.
    pub fn over(inner: H, reactor: Arc<Reactor>) -> ReactorHost<H> {
        ReactorHost {
            inner,
            reactor: Some(reactor),
            seat: None,
        }
    }
}

/// No clone where the system has no place for the announced thread to wait at.
impl<H: Clone + Drop + Net> Clone for ReactorHost<H> {
    fn clone(&self) -> Result<ReactorHost<H>, AllocError> {
        let inner = self.inner.clone()?;
        let Some(reactor) = &self.reactor else {
            return Ok(ReactorHost::new(inner));
        };
        match reactor.take_seat(&self.inner) {
            Ok(seat) => Ok(ReactorHost {
                inner,
                reactor: Some(Arc::try_clone(reactor)?),
                seat,
            }),
            Err(_) => Err(AllocError),
        }
    }
}

impl<H: Wait> Wait for ReactorHost<H> {}

impl<H: Threads> Threads for ReactorHost<H> {}

impl<H: Clock> Clock for ReactorHost<H> {
    fn monotonic(&self) -> io::Result<Duration> {
        self.inner.monotonic()
    }

    fn since_1970(&self) -> io::Result<Duration> {
        self.inner.since_1970()
    }

    fn sleep(&self, duration: Duration) {
        if let Some(reactor) = &self.reactor
            && let Some(seat) = self.seat
            && reactor.wait(seat, duration).is_ok()
        {
            return;
        }
        self.inner.sleep(duration);
    }
}

impl<H: Alloc> Alloc for ReactorHost<H> {
    type A = H::A;

    fn alloc(&self) -> H::A {
        self.inner.alloc()
    }
}

impl<H: Print> Print for ReactorHost<H> {
    fn print<D: Display + Drop>(&self, value: D) -> io::Result<()> {
        self.inner.print(value)
    }

    fn println<D: Display + Drop>(&self, value: D) -> io::Result<()> {
        self.inner.println(value)
    }

    fn write_all(&self, bytes: &[u8]) -> io::Result<()> {
        self.inner.write_all(bytes)
    }
}

impl<H: Eprint> Eprint for ReactorHost<H> {
    fn eprint<D: Display + Drop>(&self, value: D) -> io::Result<()> {
        self.inner.eprint(value)
    }

    fn eprintln<D: Display + Drop>(&self, value: D) -> io::Result<()> {
        self.inner.eprintln(value)
    }
}

impl<H: Input> Input for ReactorHost<H> {
    type Reader = H::Reader;

    fn read_line<A: Allocator + Clone>(&self, buf: &mut String<A>) -> io::Result<usize> {
        self.inner.read_line(buf)
    }

    fn lines<A: Allocator>(&self, alloc: A) -> Lines<H::Reader, A> {
        self.inner.lines(alloc)
    }

    fn reader(&self) -> H::Reader {
        self.inner.reader()
    }
}

impl<H: Env> Env for ReactorHost<H> {
    fn arg(&self, i: usize, buf: &mut [u8]) -> Result<usize, FillError> {
        self.inner.arg(i, buf)
    }

    fn var(&self, name: &str, buf: &mut [u8]) -> Result<usize, FillError> {
        self.inner.var(name, buf)
    }

    fn var_at(&self, i: usize, buf: &mut [u8]) -> Result<usize, FillError> {
        self.inner.var_at(i, buf)
    }
}

impl<H: Files> Files for ReactorHost<H> {
    type File = H::File;

    type Dir = H::Dir;

    fn open_file(&self, how: &OpenOptions, path: &str) -> io::Result<H::File> {
        self.inner.open_file(how, path)
    }

    fn open_dir(&self, path: &str) -> io::Result<H::Dir> {
        self.inner.open_dir(path)
    }

    fn metadata(&self, path: &str) -> io::Result<Metadata> {
        self.inner.metadata(path)
    }

    fn symlink_metadata(&self, path: &str) -> io::Result<Metadata> {
        self.inner.symlink_metadata(path)
    }

    fn copy(&self, from: &str, to: &str) -> io::Result<u64> {
        self.inner.copy(from, to)
    }

    fn rename(&self, from: &str, to: &str) -> io::Result<()> {
        self.inner.rename(from, to)
    }

    fn remove_file(&self, path: &str) -> io::Result<()> {
        self.inner.remove_file(path)
    }

    fn create_dir(&self, path: &str) -> io::Result<()> {
        self.inner.create_dir(path)
    }

    fn remove_dir(&self, path: &str) -> io::Result<()> {
        self.inner.remove_dir(path)
    }

    fn remove_dir_all<B: Allocator>(&self, alloc: B, path: &str) -> io::Result<()> {
        self.inner.remove_dir_all(alloc, path)
    }
}

impl<H: Net> Net for ReactorHost<H> {
    type Stream = H::Stream;

    type Listener = H::Listener;

    fn bind(&self, addr: SocketAddr) -> io::Result<H::Listener> {
        self.inner.bind(addr)
    }

    fn connect(&self, addr: SocketAddr) -> io::Result<H::Stream> {
        self.inner.connect(addr)
    }
}

impl<H: Runtime + Net> Runtime for ReactorHost<H> {}
