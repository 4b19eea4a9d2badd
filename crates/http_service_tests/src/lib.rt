//! Tests of `http_service` by public calls: each setting, the order in which the parts of a service are made and asked, and
//! connections that are served by each of its forms.
#![tactic(auto)]

#[cfg(test)]
mod hello;
#[cfg(test)]
mod late;
#[cfg(test)]
mod making;
#[cfg(test)]
mod making_tests;
#[cfg(test)]
mod mood;
#[cfg(test)]
mod porter;
#[cfg(test)]
mod serving;
#[cfg(test)]
mod serving_tests;
#[cfg(test)]
mod settings_tests;
#[cfg(test)]
mod switch;
