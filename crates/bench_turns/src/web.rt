//! The service of HTTP connections.

use cors_answer::Cors;
use script::Script;
use script_service::ReplayFactory;
use std::alloc::{AllocError, Global};

/// What makes the services that the program listens with: its handler `hello` under the policy that allows everything.
pub fn web(alloc: Global) -> Result<ReplayFactory, AllocError> {
    let cors = Cors::permissive(alloc)?;
    let script = Script::new(alloc);
    ReplayFactory::new(alloc, cors, script.settings)
}
