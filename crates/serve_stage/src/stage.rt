//! Runs of a server.
use crate::end_after::EndAfter;
use crate::plan::Plan;
use server::Server;
use server_commands::Commands;
use server_edge::ScriptSpawner;
use server_jobs::StepClock;
use server_run::{Host, KeepAll, MemoryLink, MemoryListener, Report, ServeError};
use service_core::Ended;
use std::alloc::{AllocError, Global};

/// What a run is given beside its server and its commands.
#[derive(Drop)]
pub struct Stage {
    /// Where its memory comes from.
    pub alloc: Global,
    /// What is listened to.
    pub listeners: Vec<MemoryListener>,
    clock: StepClock,
    spawner: ScriptSpawner,
    /// What is handed on.
    pub done: KeepAll<MemoryLink>,
}

impl Stage {
    /// These listeners, and what starts the workers of the plan.
    pub fn new(
        alloc: Global,
        plan: &Plan,
        listeners: Vec<MemoryListener>,
    ) -> Result<Stage, AllocError> {
        let spawner = plan.spawner(alloc)?;
        Ok(Stage {
            alloc,
            listeners,
            clock: StepClock::new(0, plan.step),
            spawner,
            done: KeepAll::new(alloc),
        })
    }

    /// Serves, told by these commands. The listeners have to be few.
    pub fn run<Ho: Host + 'static, Co: Commands>(
        &mut self,
        rt: &Ho,
        server: Server<EndAfter>,
        commands: &mut Co,
    ) -> Result<Report, ServeError<usize>> {
        if self.listeners.len() > 64 {
            return Err(ServeError::Memory);
        }
        // The proof of the call wants this type to be named.
        let _ended: Option<Ended<MemoryLink>> = None;
        server.serve(
            rt,
            self.alloc,
            &mut self.listeners,
            commands,
            &mut self.clock,
            &mut self.spawner,
            &mut self.done,
        )
    }
}
