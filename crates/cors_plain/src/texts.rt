ghost use Rattle.std.specs.Prelude.{◌≡◌, [], fold, map, IfOk};
ghost use Rattle.cors_rules.specs.Sets.{holds, joined, joined_some, names_in, with};

use crate::headers::Header;
use service_core::Octets;
use std::alloc::{AllocError, Global};
use std::cmp::Ordering;
use std::marker::Model;

/// Texts in the order of their bytes, each once. Contracts see the list.
#[derive(Drop)]
pub struct Texts {
    members: Vec<Octets>,
}

impl Model for Texts {
    ghost use Rattle.std.specs.Prelude.{ℕ, List};

    ghost Value = { List (List ℕ) };

    ghost view = { λ t. t.members.items };
}

fn copies(alloc: Global, texts: &[Octets]) -> Result<Vec<Octets>, AllocError>
    ensures { IfOk result (λ list. list.items ≡ texts.now) }
{
    match texts {
        [] => Ok(Vec::new(alloc)),
        [text, rest @ ..] => {
            let mut list = copies(alloc, rest)?;
            list.insert(0, text.copy()?)?;
            Ok(list)
        }
    }
}

// The texts with one more at its place, unless it is there.
fn with(alloc: Global, texts: &[Octets], text: &[u8]) -> Result<Vec<Octets>, AllocError>
    ensures { IfOk result (λ list. list.items ≡ with texts.now text.now) }
{
    match texts {
        [] => {
            let mut list = Vec::new(alloc);
            list.push(Octets::of(alloc, text)?)?;
            Ok(list)
        }
        [first, rest @ ..] => match text.cmp(first.as_bytes()) {
            Ordering::Less => {
                let mut list = copies(alloc, texts)?;
                list.insert(0, Octets::of(alloc, text)?)?;
                Ok(list)
            }
            Ordering::Equal => copies(alloc, texts),
            Ordering::Greater => {
                let mut list = with(alloc, rest, text)?;
                list.insert(0, first.copy()?)?;
                Ok(list)
            }
        },
    }
}

// The texts with `, ` between them.
fn joined(alloc: Global, texts: &[Octets]) -> Result<Octets, AllocError>
    ensures { IfOk result (λ text. text ≡ joined texts.now) }
{
    match texts {
        [] => Ok(Octets::new(alloc)),
        [text] => text.copy(),
        [text, rest @ ..] => {
            let mut line = text.copy()?;
            let behind = joined(alloc, rest)?;
            line.push_all(b", ")?;
            line.push_all(behind.as_bytes())?;
            Ok(line)
        }
    }
}

// The names of the headers, beside those that there are.
fn and_names(alloc: Global, texts: Texts, headers: &[Header]) -> Result<Texts, AllocError>
    ensures { IfOk result (λ names. names ≡ fold with texts (map (λ header. header.0) headers.now)) }
{
    match headers {
        [] => Ok(texts),
        [header, rest @ ..] => {
            let more = texts.with(alloc, header.0.as_bytes())?;
            and_names(alloc, more, rest)
        }
    }
}

/// The names that stand in the list.
pub(crate) fn names_in(alloc: Global, headers: &[Header]) -> Result<Texts, AllocError>
    ensures { IfOk result (λ names. names ≡ names_in headers.now) }
{
    and_names(alloc, Texts::new(alloc), headers)
}

impl Texts {
    /// No texts.
    pub fn new(alloc: Global) -> Texts
        ensures { result ≡ [] }
    {
        Texts {
            members: Vec::new(alloc),
        }
    }

    /// The texts in order.
    pub fn members(&self) -> &[Octets]
        ensures { result.now ≡ self.now }
    {
        &self.members
    }

    /// Whether the text is one of them.
    pub fn holds(&self, text: &[u8]) -> bool
        ensures { result ≡ holds self.now text.now }
    {
        self.members.iter().any(|member| text == member.as_bytes())
    }

    /// The set with the text.
    pub fn with(&self, alloc: Global, text: &[u8]) -> Result<Texts, AllocError>
        ensures { IfOk result (λ texts. texts ≡ with self.now text.now) }
    {
        Ok(Texts {
            members: with(alloc, &self.members, text)?,
        })
    }

    /// The texts with `, ` between them, where there is one.
    pub fn joined(&self, alloc: Global) -> Result<Option<Octets>, AllocError>
        ensures { IfOk result (λ value. value ≡ joined_some self.now) }
    {
        if self.members.is_empty() {
            return Ok(None);
        }
        Ok(Some(joined(alloc, &self.members)?))
    }
}
