//! The words of the command line.
ghost use Rattle.std.specs.Prelude.{◌≤◌, IfSome};
ghost use Rattle.bench_accept.specs.Size.{IsSound};

use server_core::MAX_WORKERS;

/// How much is measured.
#[derive(Clone, Copy)]
pub struct Size {
    /// How many workers there are.
    pub workers: usize,
    /// How many of them stay free: the last ones.
    pub free: usize,
    /// How many connections come and go.
    pub turns: u32,
    /// How many more picks are made for each of them.
    pub picks: u32,
}

impl Size {
    /// The four words as numbers: 1 to `MAX_WORKERS` workers, of which 1 to all stay free. None where they are no such words.
    pub fn of_words(words: &[String]) -> Option<Size>
        ensures { IfSome result IsSound }
    {
        let [workers, free, turns, picks] = words else {
            return None;
        };
        let size = Size {
            workers: workers.parse::<usize>().ok()?,
            free: free.parse::<usize>().ok()?,
            turns: turns.parse::<u32>().ok()?,
            picks: picks.parse::<u32>().ok()?,
        };
        if size.free == 0 || size.free > size.workers || size.workers > MAX_WORKERS {
            return None;
        }
        Some(size)
    }
}
