//! Tests of the combinators of services, and small programs over services, as authors of frameworks and of gateways write
//! them.
#![tactic(auto)]

#[cfg(test)]
mod builds;
#[cfg(test)]
mod clone_tests;
#[cfg(test)]
mod copies;
#[cfg(test)]
mod core_tests;
#[cfg(test)]
mod law_tests;
#[cfg(test)]
mod numbers;
#[cfg(test)]
mod pipeline_tests;
#[cfg(test)]
mod pipelines;
#[cfg(test)]
mod questions;
#[cfg(test)]
mod service_programs;
#[cfg(test)]
mod service_tests;
#[cfg(test)]
mod services;
#[cfg(test)]
mod shown;
#[cfg(test)]
mod through;
