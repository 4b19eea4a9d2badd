//! Texts in a row, to be searched for bytes of a request.
ghost use Rattle.std.specs.Prelude.{◌≡◌, ◌++◌, IfOk, OnOk};
ghost use Rattle.std.specs.Prelude.{◌==◌};
ghost use Rattle.std.specs.List.{list_all};
ghost use Rattle.std.specs.List.Sorted.{IsStrictlySortedBy};
ghost use Rattle.std.specs.Char.{to_ascii_lowercase};
ghost use Rattle.std.specs.Ordering.{nat_cmp};
ghost use Rattle.std.specs.Cmp.Lexicographic.{slice_cmp};
ghost use Rattle.http_header.specs.Token.{lowercase};
ghost use Rattle.cors_rules.specs.Sets.{holds};

use http1_plain::FieldValue;
use std::alloc::{AllocError, Global};
use std::cmp::Ordering;
use std::collections::BTreeSet;
use std::marker::Model;

/// The members of a set in one row, in the order of their bytes. It is searched for bytes as they stand in a request,
/// which takes no memory.
#[derive(Drop)]
pub struct SortedTexts {
    row: Vec<FieldValue>,
}

impl Model for SortedTexts {
    ghost use Rattle.std.specs.Ordering.{nat_cmp};
    ghost use Rattle.std.specs.Cmp.Lexicographic.{slice_cmp};
    ghost use Rattle.std.specs.List.Sorted.{IsStrictlySortedBy};
    ghost use Rattle.cors_rules.specs.Sets.{Texts};

    ghost Value = { Texts };

    ghost view = { λ t. t.row.items };

    ghost invariant = { λ t. IsStrictlySortedBy (slice_cmp nat_cmp) t.row.items };
}

// Up to so many texts are compared one by one.
const FEW_TEXTS: usize = 8;

// How the text stands to the name in lower case, by their bytes.
pub(crate) fn cmp_lowered(text: &[u8], name: &[u8]) -> Ordering
    ensures { result ≡ slice_cmp nat_cmp text.now (lowercase name.now) }
{
    text.iter()
        .copied()
        .cmp(name.iter().map(|b| b.to_ascii_lowercase()))
}

// Whether each letter of the name is in lower case.
fn is_lower(name: &[u8]) -> bool
    ensures { result ≡ list_all (λ b. to_ascii_lowercase b == b) name.now }
{
    name.iter().all(|b| b.to_ascii_lowercase() == *b)
}

// Appends a copy of each member of the set.
#[tactic(auto, using(crate::proofs::SetSteps::texts_more, std::proofs::Common::append_assoc))]
fn push_copies(row: &mut Vec<FieldValue>, texts: &BTreeSet<FieldValue>) -> Result<(), AllocError>
    ensures copied { OnOk result (row.new.items ≡ row.old.items ++ texts.now.keys) }
    ensures sorted { IsStrictlySortedBy (slice_cmp nat_cmp) texts.now.keys }
{
    for text in texts.iter() {
        row.push(text.copy()?)?;
    }
    Ok(())
}

impl SortedTexts {
    /// The members of the set.
    pub fn of(alloc: Global, texts: &BTreeSet<FieldValue>) -> Result<SortedTexts, AllocError>
        ensures { IfOk result (λ row. row ≡ texts.now.keys) }
    {
        let mut row = Vec::new(alloc);
        match push_copies(&mut row, texts) {
            Ok(()) => Ok(SortedTexts { row }),
            Err(error) => {
                drop(row);
                Err(error)
            }
        }
    }

    /// Whether the text is a member, by a search where the row is long. Among few texts most differ in their lengths.
    pub fn contains(&self, text: &[u8]) -> bool
        ensures { result ≡ holds self.now text.now }
    {
        if self.row.len() <= FEW_TEXTS {
            self.row.iter().any(|member| text == member.as_bytes())
        } else {
            self.search(text)
        }
    }

    fn search(&self, text: &[u8]) -> bool
        ensures { result ≡ holds self.now text.now }
    {
        self.row
            .binary_search_by(|member| member.as_bytes().cmp(text))
            .is_ok()
    }

    /// Whether the name, in lower case, is a member, by a search. Most names are in lower case, and compared as they are.
    #[tactic(auto, using(crate::proofs::SetSteps::lower_holds))]
    pub fn contains_lowered(&self, name: &[u8]) -> bool
        ensures { result ≡ holds self.now (lowercase name.now) }
    {
        if is_lower(name) {
            self.contains(name)
        } else {
            self.search_lowered(name)
        }
    }

    fn search_lowered(&self, name: &[u8]) -> bool
        ensures { result ≡ holds self.now (lowercase name.now) }
    {
        self.row
            .binary_search_by(|text| cmp_lowered(text.as_bytes(), name))
            .is_ok()
    }
}
