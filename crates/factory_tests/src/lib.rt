//! Tests of factories and of transforms: their combinators and copies, services of closures, and what is made of a
//! closure or of a configuration; small programs over factories and over configurations.
#![tactic(auto)]

#[cfg(test)]
mod asking;
#[cfg(test)]
mod changing;
#[cfg(test)]
mod config_programs;
#[cfg(test)]
mod config_tests;
#[cfg(test)]
mod configuring;
#[cfg(test)]
mod copy_tests;
#[cfg(test)]
mod factory_programs;
#[cfg(test)]
mod factory_tests;
#[cfg(test)]
mod makers;
#[cfg(test)]
mod making;
#[cfg(test)]
mod making_tests;
#[cfg(test)]
mod naming;
#[cfg(test)]
mod pairing;
#[cfg(test)]
mod pipeline_tests;
#[cfg(test)]
mod refusal_tests;
#[cfg(test)]
mod services;
#[cfg(test)]
mod shown;
#[cfg(test)]
mod transform_tests;
#[cfg(test)]
mod transforms;
#[cfg(test)]
mod words;
#[cfg(test)]
mod wrapping;
