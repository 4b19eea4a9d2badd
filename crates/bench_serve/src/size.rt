//! The words of the command line.

/// What is measured.
#[derive(Clone, Copy)]
pub struct Size {
    /// The time is printed.
    pub timed: bool,
    /// How many workers there are.
    pub workers: u16,
    /// How many connections come, one after the other.
    pub connections: u32,
    /// How many requests each of them sends.
    pub requests: u32,
    /// So many milliseconds nothing comes, before the listener ends.
    pub idle: u64,
}

// Whether the time is printed. None where the word is neither of these.
fn is_timed(word: &str) -> Option<bool> {
    match word {
        "count" => Some(false),
        "time" => Some(true),
        _ => None,
    }
}

impl Size {
    /// A word and four numbers. None where the words are no such words.
    pub fn of_words(words: &[String]) -> Option<Size> {
        let [task, workers, connections, requests, idle] = words else {
            return None;
        };
        Some(Size {
            timed: is_timed(task)?,
            workers: workers.parse().ok()?,
            connections: connections.parse().ok()?,
            requests: requests.parse().ok()?,
            idle: idle.parse().ok()?,
        })
    }
}
