//! Worked rows of requests, responses, headers, and of what a policy on cross-origin requests is told in.
#![tactic(auto)]

#[cfg(test)]
mod all_or_some_tests;
#[cfg(test)]
mod bytes;
#[cfg(test)]
mod header_tests;
#[cfg(test)]
mod headers;
#[cfg(test)]
mod request_header_tests;
#[cfg(test)]
mod request_tests;
#[cfg(test)]
mod response_tests;
#[cfg(test)]
mod rule_tests;
#[cfg(test)]
mod sharing_tests;
#[cfg(test)]
mod shown;
#[cfg(test)]
mod value_tests;
