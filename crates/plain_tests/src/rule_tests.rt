//! Errors in words, and sets.
use crate::shown::hold;
use cors_rules::laws::{
    credentials_have_no_wildcard, equality_is_an_equivalence, grants_stand_alone,
    only_granted_origins_are_told, refusals_have_their_causes, requests_with_no_origin_pass,
    uris_are_those_of_http_uri,
};
use cors_rules::{AllOrSome, ConfigError, CorsError};
use std::alloc::{AllocError, Global};
use std::test::Fail;

// Whether an answer's error is told so.
fn is_error(error: CorsError, text: &str) -> bool {
    error.text() == text
}

// Whether a builder's error is told so.
fn is_fault(error: ConfigError, text: &str) -> bool {
    error.text() == text
}

fn is_text(printed: &String, text: &str) -> bool {
    printed.as_str() == text
}

// Whether an answer's error is printed so.
fn prints_error(alloc: Global, error: CorsError, text: &str) -> Result<bool, AllocError> {
    match format!(in alloc; "{error}") {
        Ok(printed) => Ok(is_text(&printed, text)),
        Err(error) => Err(error),
    }
}

// Whether a builder's error is printed so.
fn prints_fault(alloc: Global, error: ConfigError, text: &str) -> Result<bool, AllocError> {
    match format!(in alloc; "{error}") {
        Ok(printed) => Ok(is_text(&printed, text)),
        Err(error) => Err(error),
    }
}

fn errors_are_printed(alloc: Global) -> Result<bool, AllocError> {
    prints_error(
        alloc,
        CorsError::HeadersNotAllowed,
        "One or more request headers are not allowed",
    )
}

fn faults_are_printed(alloc: Global) -> Result<bool, AllocError> {
    prints_fault(
        alloc,
        ConfigError::WildcardOrigin,
        "`allowed_origin` argument must not be wildcard (`*`)",
    )
}

fn missing_origin_is_told() -> bool {
    is_error(
        CorsError::MissingOrigin,
        "Request header `Origin` is required but was not provided",
    )
}

#[test]
fn errors_are_printed_by_their_texts(rt: HostRuntime) -> Result<(), Fail> {
    let alloc = rt.alloc();
    hold(
        &rt,
        &[
            Ok(missing_origin_is_told()),
            errors_are_printed(alloc),
            Ok(CorsError::MethodNotAllowed.status_code() == 400),
            Ok(is_fault(ConfigError::BadOriginUri, "allowed origin is not a URI")),
            faults_are_printed(alloc),
        ],
    )
}

// Whether everything is not some.
fn is_everything(set: &AllOrSome<u8>) -> bool {
    set.is_all() && !set.is_some() && set.as_ref() == None
}

// Whether the set is only this number.
fn is_only(set: &AllOrSome<u8>, number: u8) -> bool {
    set.is_some() && !set.is_all() && set.as_ref() == Some(&number)
}

fn change(set: &mut AllOrSome<u8>, to: u8) {
    if let Some(number) = set.as_mut() {
        *number = to;
    }
}

#[test]
fn everything_and_some(rt: HostRuntime) -> Result<(), Fail> {
    let all = AllOrSome::<u8>::default();
    assert!(rt; is_everything(&all));
    let mut some = AllOrSome::Some(7u8);
    assert!(rt; is_only(&some, 7));
    change(&mut some, 8);
    assert!(rt; is_only(&some, 8));
    assert!(rt; some == AllOrSome::Some(8) && some != all);
    Ok(())
}

#[test]
fn laws_can_be_called() {
    requests_with_no_origin_pass::<u8>();
    grants_stand_alone::<u8>();
    credentials_have_no_wildcard::<u8>();
    equality_is_an_equivalence::<u8>();
    only_granted_origins_are_told::<u8, u8>();
    refusals_have_their_causes::<u8>();
    uris_are_those_of_http_uri();
}
