//! Tests of `server_worker`: workers that are turned by hand, and on real threads.
#![tactic(auto)]

#[cfg(test)]
mod clerk;
#[cfg(test)]
mod desk;
#[cfg(test)]
mod echo;
#[cfg(test)]
mod ends;
#[cfg(test)]
mod fault_tests;
#[cfg(test)]
mod held;
#[cfg(test)]
mod kind;
#[cfg(test)]
mod ledger;
#[cfg(test)]
mod opening;
#[cfg(test)]
mod plan;
#[cfg(test)]
mod quiet_link;
#[cfg(test)]
mod resting_tests;
#[cfg(test)]
mod side;
#[cfg(test)]
mod station;
#[cfg(test)]
mod stop_tests;
#[cfg(test)]
mod thread_tests;
#[cfg(test)]
mod trial;
#[cfg(test)]
mod turn_tests;
