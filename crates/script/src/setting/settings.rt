//! How a script's connections are served, and by what.
ghost use Rattle.std.specs.Prelude.{◌≡◌, ◌<◌, true, false};
ghost use Rattle.http1_plain.specs.DefaultLimits.{IsDefault};
ghost use Rattle.script.specs.Numbers.{IsWithin};
ghost use Rattle.script.specs.declared.handler.Handler.TheVariants.{Hello};

use crate::handler::Handler;
use http1_plain::Limits;

/// How the connections of a script are served, and what the server is set to.
#[derive(Clone, Copy)]
pub struct Settings {
    /// How many bytes of a head and of a body are read.
    pub limits: Limits,
    /// What a connection gives comes in pieces of at most so many bytes, from 1 to 65,536.
    pub cut: usize,
    /// What answers the requests.
    pub handler: Handler,
    /// Connections stay open behind a response.
    pub keeps_alive: bool,
    /// An expectation is refused by 417.
    pub refuses_expectations: bool,
    /// A connection whose head names `upgrade` is echoed.
    pub echoes_upgrades: bool,
    /// How many workers serve, from 1 to 512.
    pub workers: usize,
    /// How many places the ring to each worker has, from 1 to 4,096.
    pub ring: usize,
    /// How often a listener may fail in a row, from 1 to 1,000.
    pub retry_limit: u64,
    /// How many connections a worker has at once at the most, from 1 to 1,000,000.
    pub limit: u64,
    ghost some: { 0 < cut },
    ghost workers_within: { IsWithin 1 512 workers },
    ghost ring_within: { IsWithin 1 4096 ring },
    ghost retry_limit_within: { IsWithin 1 1000 retry_limit },
    ghost limit_within: { IsWithin 1 1000000 limit },
}

impl Settings {
    /// What holds where no line sets it: the limits by default, pieces of 65,536 bytes, and `Hello world!`. Connections stay
    /// open, no expectation is refused, and no upgrade is echoed. There are two workers with rings of 128 places and 25,600
    /// connections at once, and a listener may fail 8 times in a row.
    pub fn new() -> Settings
        ensures limits { IsDefault result.limits }
        ensures cut { result.cut ≡ 65536 }
        ensures handler { result.handler ≡ Hello }
        ensures keeps_alive { result.keeps_alive ≡ true }
        ensures refuses_expectations { result.refuses_expectations ≡ false }
        ensures echoes_upgrades { result.echoes_upgrades ≡ false }
        ensures workers { result.workers ≡ 2 }
        ensures ring { result.ring ≡ 128 }
        ensures retry_limit { result.retry_limit ≡ 8 }
        ensures limit { result.limit ≡ 25600 }
    {
        Settings {
            limits: Limits::default(),
            cut: 65_536,
            handler: Handler::Hello,
            keeps_alive: true,
            refuses_expectations: false,
            echoes_upgrades: false,
            workers: 2,
            ring: 128,
            retry_limit: 8,
            limit: 25_600,
        }
    }
}
