//! Reads the policy lines of a script.
ghost use Rattle.std.specs.Prelude.{◌≡◌, true, IfOk};
ghost use Rattle.std.specs.List.{list_all, list_any};
ghost use Rattle.std.specs.Option.{option_map};
ghost use Rattle.script.specs.Plain.{is_plain};
ghost use Rattle.script.specs.PolicyText.{is_empty, words, some_text, some_words, text_line, words_line, names_line, exposed_line, rule_line, age_line, seconds_line, all_line, flag_line, policy_line};

use crate::policy::{PolicyLine, ScriptRule};
use crate::text::{PlainText, number_to};
use std::alloc::{AllocError, Global};

/// What a policy line says. None where it is not one.
pub fn read_policy_line(alloc: Global, line: &[u8]) -> Result<Option<PolicyLine>, AllocError>
    requires { list_all is_plain line.now ≡ true }
    ensures { IfOk result (λ said. said ≡ policy_line line.now) }
{
    if let Some(said) = text_line(alloc, line)? {
        return Ok(Some(said));
    }
    if let Some(said) = words_line(alloc, line)? {
        return Ok(Some(said));
    }
    if let Some(said) = rule_line(line) {
        return Ok(Some(said));
    }
    if let Some(said) = age_line(line) {
        return Ok(Some(said));
    }
    if let Some(said) = all_line(line) {
        return Ok(Some(said));
    }
    Ok(flag_line(line))
}

// The text behind the first word of a line, which is not empty.
fn some_text(alloc: Global, text: &[u8]) -> Result<Option<PlainText>, AllocError>
    requires { list_all is_plain text.now ≡ true }
    ensures { IfOk result (λ told. told ≡ some_text text.now) }
{
    if text.is_empty() {
        return Ok(None);
    }
    Ok(Some(PlainText::of(alloc, text)?))
}

// Whether a word is missing.
fn lacks_a_word(text: &[u8]) -> bool
    ensures { result ≡ list_any is_empty (words text.now) }
{
    text.split(|b| *b == b' ').any(|word| word.is_empty())
}

// A text of words, of which none is missing.
fn some_words(alloc: Global, text: &[u8]) -> Result<Option<PlainText>, AllocError>
    requires { list_all is_plain text.now ≡ true }
    ensures { IfOk result (λ told. told ≡ some_words text.now) }
{
    if lacks_a_word(text) {
        return Ok(None);
    }
    Ok(Some(PlainText::of(alloc, text)?))
}

// One name or origin, which is the rest of the line.
fn text_line(alloc: Global, line: &[u8]) -> Result<Option<PolicyLine>, AllocError>
    requires { list_all is_plain line.now ≡ true }
    ensures { IfOk result (λ said. said ≡ text_line line.now) }
{
    if line.starts_with(b"origin ".as_slice()) {
        return Ok(some_text(alloc, &line[7..])?.map(PolicyLine::Origin));
    }
    if line.starts_with(b"header ".as_slice()) {
        return Ok(some_text(alloc, &line[7..])?.map(PolicyLine::Header));
    }
    Ok(None)
}

// One or more words.
fn words_line(alloc: Global, line: &[u8]) -> Result<Option<PolicyLine>, AllocError>
    requires { list_all is_plain line.now ≡ true }
    ensures { IfOk result (λ said. said ≡ words_line line.now) }
{
    if line.starts_with(b"methods ".as_slice()) {
        return Ok(some_words(alloc, &line[8..])?.map(PolicyLine::Methods));
    }
    names_line(alloc, line)
}

// One or more names of headers.
fn names_line(alloc: Global, line: &[u8]) -> Result<Option<PolicyLine>, AllocError>
    requires { list_all is_plain line.now ≡ true }
    ensures { IfOk result (λ said. said ≡ names_line line.now) }
{
    if line.starts_with(b"headers ".as_slice()) {
        return Ok(some_words(alloc, &line[8..])?.map(PolicyLine::Headers));
    }
    exposed_line(alloc, line)
}

// One or more names of response headers.
fn exposed_line(alloc: Global, line: &[u8]) -> Result<Option<PolicyLine>, AllocError>
    requires { list_all is_plain line.now ≡ true }
    ensures { IfOk result (λ said. said ≡ exposed_line line.now) }
{
    if line.starts_with(b"expose ".as_slice()) {
        return Ok(some_words(alloc, &line[7..])?.map(PolicyLine::Expose));
    }
    Ok(None)
}

fn rule_line(line: &[u8]) -> Option<PolicyLine>
    ensures { result ≡ rule_line line.now }
{
    if line == b"rule always".as_slice() {
        return Some(PolicyLine::Rule(ScriptRule::Always));
    }
    if line == b"rule dnt".as_slice() {
        return Some(PolicyLine::Rule(ScriptRule::Dnt));
    }
    if line == b"rule rust-lang".as_slice() {
        return Some(PolicyLine::Rule(ScriptRule::RustLang));
    }
    None
}

// A number of seconds below 2^64.
fn seconds_line(text: &[u8]) -> Option<PolicyLine>
    ensures { result ≡ seconds_line text.now }
{
    match number_to(0xffff_ffff_ffff_ffff, text) {
        None => None,
        Some(seconds) => Some(PolicyLine::MaxAge(Some(seconds as u64))),
    }
}

// Such a number, or none.
#[tactic(auto, using(std::proofs::lemmas::List::take_rest))]
fn age_line(line: &[u8]) -> Option<PolicyLine>
    ensures { result ≡ age_line line.now }
{
    if line == b"max-age none".as_slice() {
        return Some(PolicyLine::MaxAge(None));
    }
    if line.starts_with(b"max-age ".as_slice()) {
        return seconds_line(&line[8..]);
    }
    None
}

// Everything is allowed.
fn all_line(line: &[u8]) -> Option<PolicyLine>
    ensures { result ≡ all_line line.now }
{
    if line == b"permissive".as_slice() {
        return Some(PolicyLine::Permissive);
    }
    if line == b"any-origin".as_slice() {
        return Some(PolicyLine::AnyOrigin);
    }
    if line == b"any-method".as_slice() {
        return Some(PolicyLine::AnyMethod);
    }
    if line == b"any-header".as_slice() {
        return Some(PolicyLine::AnyHeader);
    }
    if line == b"expose-any".as_slice() {
        return Some(PolicyLine::ExposeAny);
    }
    None
}

// A flag.
fn flag_line(line: &[u8]) -> Option<PolicyLine>
    ensures { result ≡ flag_line line.now }
{
    if line == b"wildcard".as_slice() {
        return Some(PolicyLine::Wildcard);
    }
    if line == b"credentials".as_slice() {
        return Some(PolicyLine::Credentials);
    }
    if line == b"no-vary".as_slice() {
        return Some(PolicyLine::NoVary);
    }
    if line == b"no-preflight".as_slice() {
        return Some(PolicyLine::NoPreflight);
    }
    if line == b"block".as_slice() {
        return Some(PolicyLine::Block);
    }
    None
}
