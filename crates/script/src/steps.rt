//! The steps of a listener in memory.
ghost use Rattle.std.specs.Prelude.{◌≡◌, length, map, IfOk};
ghost use Rattle.std.specs.List.{count_by};
ghost use Rattle.server_run.specs.Memory.{links};
ghost use Rattle.script.specs.Offering.{AreFresh, coming_of};
ghost use Rattle.script.specs.Planned.{is_connection};

use crate::coming::Coming;
use crate::connection::Connection;
use server_run::{ListenerStep, MemoryLink};
use service_core::Link;
use std::alloc::{AllocError, Global};
use std::collections::VecDeque;

/// A step for each answer of a listener. The links are those of its connections in order, named by their places from 0.
pub(crate) fn steps_of(
    alloc: Global,
    comings: &[Coming],
    connections: Vec<Connection>,
) -> Result<Vec<ListenerStep>, AllocError>
    requires { count_by is_connection comings.now ≡ length connections.items }
    ensures fresh { IfOk result (λ steps. AreFresh ⟦<MemoryLink as Link>⟧ 0 connections.items (links steps.items)) }
    ensures answers { IfOk result (λ steps. map coming_of steps.items ≡ comings.now) }
{
    let mut steps = Vec::with_capacity(alloc, comings.len())?;
    let mut rest = VecDeque::from_vec(connections);
    let mut name = 0;
    for coming in comings {
        match *coming {
            Coming::Connection => {
                let Some(connection) = rest.pop_front() else {
                    unreachable!();
                };
                steps.push_reserved(ListenerStep::Give(connection.into_link(alloc, name)));
                name += 1;
            }
            Coming::Late => steps.push_reserved(ListenerStep::NotYet),
            Coming::Skip => steps.push_reserved(ListenerStep::Skip),
            Coming::Failure => steps.push_reserved(ListenerStep::Fail),
        }
    }
    Ok(steps)
}
