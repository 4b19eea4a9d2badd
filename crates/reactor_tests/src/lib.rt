//! Tests of `server_reactor`, and of what stands on it: links and listeners that are told of news, and jobs that wait for it.
#![tactic(auto)]

#[cfg(test)]
mod idler;
#[cfg(test)]
mod job_tests;
#[cfg(test)]
mod link_tests;
#[cfg(test)]
mod news_tests;
#[cfg(test)]
mod wire;
