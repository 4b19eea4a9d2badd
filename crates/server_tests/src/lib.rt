//! Tests of an acceptor's bookkeeping and of a worker's, by their public calls.
#![tactic(auto)]

#[cfg(test)]
mod accept_tests;
#[cfg(test)]
mod acceptor;
#[cfg(test)]
mod command_lists;
#[cfg(test)]
mod fault_lists;
#[cfg(test)]
mod listener_lists;
#[cfg(test)]
mod lists;
#[cfg(test)]
mod room_lists;
#[cfg(test)]
mod turn_lists;
#[cfg(test)]
mod turns_tests;
#[cfg(test)]
mod worker_tests;
