//! Tests of policies on cross-origin requests, of their builders and of the middleware that keeps them.
#![tactic(auto)]

#[cfg(test)]
mod applied;
#[cfg(test)]
mod asking;
#[cfg(test)]
mod asks;
#[cfg(test)]
mod building;
#[cfg(test)]
mod copy_tests;
#[cfg(test)]
mod empty_answers;
#[cfg(test)]
mod equalities;
#[cfg(test)]
mod init_error_tests;
#[cfg(test)]
mod inner;
#[cfg(test)]
mod law_tests;
#[cfg(test)]
mod origins;
#[cfg(test)]
mod policies;
#[cfg(test)]
mod requests;
#[cfg(test)]
mod sets;
#[cfg(test)]
mod shown;
