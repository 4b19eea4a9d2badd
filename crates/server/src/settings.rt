/// What a server is set to.
#[derive(Clone, Copy, Debug, PartialEq, Eq)]
pub struct Settings {
    /// How many workers there are, from 1 to 512.
    pub workers: usize,
    /// How many connections a worker has at once, at most: from 1 to below the greatest `u64`.
    pub limit: u64,
    /// How many places each ring between the acceptor and a worker has, from 1 to 4,096.
    pub ring: usize,
    /// How often a listener may fail with no connection between before it is given up, from 1.
    pub retry_limit: u64,
    /// How many seconds a worker has to serve its connections to their end after a graceful stop, up to 4,294,967,295.
    pub shutdown_timeout: u64,
}
