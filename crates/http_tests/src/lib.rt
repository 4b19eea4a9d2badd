//! Tests of `http1_dispatcher` by public calls: what a connection answers, over links that give and take in pieces, wait and fail,
//! and that it is what `http_plain` says.
#![tactic(auto)]

#[cfg(test)]
mod answering;
#[cfg(test)]
mod damage_tests;
#[cfg(test)]
mod echo;
#[cfg(test)]
mod fault_tests;
#[cfg(test)]
mod flow_tests;
#[cfg(test)]
mod head_tests;
#[cfg(test)]
mod porter;
#[cfg(test)]
mod serving;
#[cfg(test)]
mod shown;
#[cfg(test)]
mod switch;
#[cfg(test)]
mod test_link;
#[cfg(test)]
mod tests;
