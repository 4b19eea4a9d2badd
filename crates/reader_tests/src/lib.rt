//! Tests of `http1_head` and `http1_reader` by public calls: the steps of bytes in pieces of many sizes, what a reader keeps, and
//! what a head asks of its connection.
#![tactic(auto)]

#[cfg(test)]
mod chunk_tests;
#[cfg(test)]
mod head_tests;
#[cfg(test)]
mod limit_tests;
#[cfg(test)]
mod reader_tests;
#[cfg(test)]
mod shown;
#[cfg(test)]
mod steps;
