//! Runs of a server whose services err.
use crate::faults::Faults;
use serve_stage::Plan;
use server_commands::NoCommands;
use server_jobs::StepClock;
use server_run::{Host, KeepAll, Listener, MemoryLink, Report, ServeError};
use service_core::Ended;
use std::alloc::Global;

/// Serves by a server of the plan. The listeners have to be few.
pub(crate) fn run<Ho: Host + 'static, Li: Listener<Link = MemoryLink>>(
    rt: &Ho,
    alloc: Global,
    plan: &Plan,
    faults: Faults,
    listeners: &mut Vec<Li>,
    done: &mut KeepAll<MemoryLink>,
) -> Result<Report, ServeError<()>> {
    if listeners.len() > 64 {
        return Err(ServeError::Memory);
    }
    // The proof of the call wants this type to be named.
    let _ended: Option<Ended<MemoryLink>> = None;
    let mut spawner = plan.spawner(alloc)?;
    let server = plan.builder(alloc)?.run(faults);
    server.serve(
        rt,
        alloc,
        listeners,
        &mut NoCommands::new(),
        &mut StepClock::new(0, plan.step),
        &mut spawner,
        done,
    )
}
