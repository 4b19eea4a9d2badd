//! Connections served by HTTP/1.1 (RFC 9112): each request that the bytes of a connection hold, in order, is answered by a
//! service of requests, behind a service of expectations, until the link ends or another protocol takes it over.
#![tactic(auto)]

mod awaited;
mod begin;
mod boxed;
mod dispatcher;
mod exchange;
mod fill;
mod flush;
mod inner_dispatcher;
mod laws;
mod outgoing;
mod respond;
mod rules;
mod state;
mod terms;
mod turn;
mod upgrade;
mod waits;

pub use dispatcher::Dispatcher;
pub use laws::{
    an_upgrade_ends_the_answers, answers_come_in_order, nothing_follows_a_closing_answer,
    nothing_follows_a_refusal, nothing_follows_a_refused_body,
    nothing_follows_a_refused_expectation, nothing_is_upgraded_unasked, served_writes,
};
pub use rules::Rules;
pub use waits::Waits;
