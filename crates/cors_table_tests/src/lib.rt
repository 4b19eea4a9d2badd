//! A table of policies and requests, on which the middleware is compared with the plain program.
#![tactic(auto)]

#[cfg(test)]
mod comparing;
#[cfg(test)]
mod inner;
#[cfg(test)]
mod policies;
#[cfg(test)]
mod requests;
#[cfg(test)]
mod shown;
#[cfg(test)]
mod steps;
#[cfg(test)]
mod tally;
