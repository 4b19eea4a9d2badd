use crate::end_after::EndAfter;
use server::{Server, ServerBuilder};
use server_commands::GracefulShutdownSignal;
use server_edge::ScriptSpawner;
use std::alloc::{AllocError, Global};
use std::sync::Arc;
use std::sync::atomic::AtomicU64;

/// How a server is set, and what is refused.
#[derive(Clone, Copy)]
pub struct Plan {
    /// How many workers there are.
    pub workers: usize,
    /// How many connections a worker may have.
    pub limit: u64,
    /// How many places each ring has.
    pub ring: usize,
    /// How often a listener may fail.
    pub retry_limit: u64,
    /// How many polls of a connection come before its last one.
    pub before: u32,
    /// The token whose service is refused.
    pub refused: Option<usize>,
    /// The worker that is not started.
    pub unstarted: Option<usize>,
    /// How many seconds a worker has after a graceful stop.
    pub timeout: u64,
    /// How many milliseconds go by from turn to turn.
    pub step: u64,
}

/// Two workers that have room for all connections. Nothing is refused.
pub const PLAIN: Plan = Plan {
    workers: 2,
    limit: 100,
    ring: 128,
    retry_limit: 8,
    before: 0,
    refused: None,
    unstarted: None,
    timeout: 30,
    step: 500,
};

impl Plan {
    /// The same with one, two and eight workers.
    pub fn by_workers(self) -> [Plan; 3] {
        [
            Plan { workers: 1, ..self },
            Plan { workers: 2, ..self },
            Plan { workers: 8, ..self },
        ]
    }

    /// The factory of its services, which counts there what they begin to serve, and of which none reads before that has come.
    pub fn factory(
        &self,
        begun: Arc<AtomicU64>,
        until: Option<GracefulShutdownSignal>,
    ) -> EndAfter {
        EndAfter {
            before: self.before,
            refused: self.refused,
            token: 0,
            begun,
            until,
        }
    }

    /// A builder that is set so. The plan has to fit.
    pub fn builder(&self, alloc: Global) -> Result<ServerBuilder, AllocError> {
        let has_workers = 1 <= self.workers && self.workers <= 512;
        let has_room = 1 <= self.limit && self.limit < u64::MAX;
        let has_places = 1 <= self.ring && self.ring <= 4_096;
        let has_time = self.timeout < 1 << 32;
        if !has_workers || !has_room || !has_places || !has_time || self.retry_limit == 0 {
            return Err(AllocError);
        }
        let builder = server::new(alloc)?
            .workers(self.workers)
            .max_concurrent_connections(self.limit)
            .ring(self.ring)
            .retry_limit(self.retry_limit)
            .shutdown_timeout(self.timeout);
        Ok(builder)
    }

    /// A server that is set so, whose services count there what they begin to serve.
    pub fn server(
        &self,
        alloc: Global,
        begun: Arc<AtomicU64>,
    ) -> Result<Server<EndAfter>, AllocError> {
        Ok(self.builder(alloc)?.run(self.factory(begun, None)))
    }

    /// What starts its workers, but one.
    pub fn spawner(&self, alloc: Global) -> Result<ScriptSpawner, AllocError> {
        let mut refused = Vec::new(alloc);
        if let Some(worker) = self.unstarted {
            refused.push(worker as u64)?;
        }
        ScriptSpawner::new(alloc, refused)
    }
}
