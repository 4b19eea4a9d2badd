ghost use Rattle.std.specs.Prelude.{◌≡◌, ◌++◌, [], IfOk, OnOk, OnErr, IsTrue, ◌↔◌, length, ◌==◌, bytes_eq};
ghost use Rattle.http_header.specs.Token.{lowercase};
ghost use Rattle.std.specs.Cmp.{partial_equiv_from_equiv};
ghost use Rattle.cors_rules.specs.Equality.{texts_eq, texts_equiv};
ghost use Rattle.cors_rules.specs.Sets.{holds, with, joined, joined_some};
ghost use Rattle.cors_sets.specs.Joining.{and_joined};

use crate::sorted_texts::{SortedTexts, cmp_lowered};
use crate::values::push_literal;
use http1_plain::FieldValue;
use std::alloc::{AllocError, Global};
use std::collections::BTreeSet;
use std::marker::Model;
use std::mem::replace;

/// A finite set of texts that may stand in a header. A contract sees its members in the order of their bytes.
#[derive(Drop)]
pub struct TextSet {
    alloc: Global,
    texts: BTreeSet<FieldValue>,
    /// The members joined, where that was done already.
    text: Option<FieldValue>,
    /// The members in a row, where that was done already.
    row: Option<SortedTexts>,
}

impl PartialEq for TextSet {
    ghost eq = { texts_eq };

    ghost laws = { partial_equiv_from_equiv texts_equiv };

    fn eq(&self, other: &TextSet) -> bool {
        self.texts == other.texts
    }
}

impl Model for TextSet {
    ghost use Rattle.std.specs.Prelude.{◌≡◌, IfSome};
    ghost use Rattle.cors_rules.specs.Sets.{Texts, joined};

    ghost Value = { Texts };

    ghost view = { λ s. s.texts.keys };

    ghost invariant = { λ s. IfSome s.text (λ text. text ≡ joined s.texts.keys) × IfSome s.row (λ row. row ≡ s.texts.keys) };
}

// Appends the next text, behind a comma where it is not the first.
fn push_joined(text: &mut FieldValue, is_first: bool, next: &FieldValue) -> Result<(), AllocError>
    ensures { OnOk result (text.new ≡ and_joined is_first text.old next.now) }
{
    if !is_first {
        push_literal(text, ", ")?;
    }
    text.push_value(next)
}

// Appends the members, with `, ` between them.
fn push_members(text: &mut FieldValue, members: &BTreeSet<FieldValue>) -> Result<(), AllocError>
    ensures { OnOk result (text.new ≡ text.old ++ joined members.now.keys) }
{
    let mut is_first = true;
    for member in members.iter() {
        push_joined(text, is_first, member)?;
        is_first = false;
    }
    Ok(())
}

// Whether the text is the name in lower case.
#[tactic(auto, using(crate::proofs::SetSteps::told_equal))]
fn is_lowered(text: &[u8], name: &[u8]) -> bool
    ensures { result ≡ bytes_eq (lowercase name.now) text.now }
{
    cmp_lowered(text, name).is_eq()
}

impl TextSet {
    /// No members, which takes no memory.
    pub fn new(alloc: Global) -> TextSet
        ensures { result ≡ [] }
    {
        TextSet {
            alloc,
            texts: BTreeSet::new(alloc),
            text: None,
            row: None,
        }
    }

    /// Where its members live.
    pub fn allocator(&self) -> Global {
        self.alloc
    }

    /// Whether it has no member.
    pub fn is_empty(&self) -> bool
        ensures { result ≡ (length self.now == 0) }
    {
        self.texts.is_empty()
    }

    /// The text becomes a member, or nothing changes.
    pub fn insert(&mut self, text: FieldValue) -> Result<(), AllocError>
        ensures ok { OnOk result (self.new ≡ with self.old text) }
        ensures err { OnErr result (self.new ≡ self.old) }
    {
        drop(replace(&mut self.text, None));
        drop(replace(&mut self.row, None));
        self.texts.insert(text)?;
        Ok(())
    }

    /// Whether the text is a member, by a search of the row, and where there is none by a scan.
    pub fn contains(&self, text: &[u8]) -> bool
        ensures { result ≡ holds self.now text.now }
    {
        match &self.row {
            Some(row) => row.contains(text),
            None => self.scan(text),
        }
    }

    fn scan(&self, text: &[u8]) -> bool
        ensures { result ≡ holds self.now text.now }
    {
        self.texts.iter().any(|member| text == member.as_bytes())
    }

    /// Whether the name, in lower case, is a member: by a search of the row, and where there is none by a scan.
    pub fn contains_lowered(&self, name: &[u8]) -> bool
        ensures { result ≡ holds self.now (lowercase name.now) }
    {
        match &self.row {
            Some(row) => row.contains_lowered(name),
            None => self.scan_lowered(name),
        }
    }

    fn scan_lowered(&self, name: &[u8]) -> bool
        ensures { result ≡ holds self.now (lowercase name.now) }
    {
        self.texts
            .iter()
            .any(|member| is_lowered(member.as_bytes(), name))
    }

    /// The members, with `, ` between them.
    pub fn joined(&self, alloc: Global) -> Result<FieldValue, AllocError>
        ensures { IfOk result (λ text. text ≡ joined self.now) }
    {
        match &self.text {
            Some(joined) => joined.copy(),
            None => self.join(alloc),
        }
    }

    /// The same, where there is a member.
    pub fn joined_some(&self, alloc: Global) -> Result<Option<FieldValue>, AllocError>
        ensures { IfOk result (λ value. value ≡ joined_some self.now) }
    {
        if self.is_empty() {
            return Ok(None);
        }
        Ok(Some(self.joined(alloc)?))
    }

    fn join(&self, alloc: Global) -> Result<FieldValue, AllocError>
        ensures { IfOk result (λ text. text ≡ joined self.now) }
    {
        let mut text = FieldValue::empty(alloc);
        match push_members(&mut text, &self.texts) {
            Ok(()) => Ok(text),
            Err(error) => {
                drop(text);
                Err(error)
            }
        }
    }

    /// An equal set.
    pub fn copy(&self) -> Result<TextSet, AllocError>
        ensures { IfOk result (λ copy. copy ≡ self.now) }
    {
        Ok(TextSet {
            alloc: self.alloc,
            texts: self.texts.clone()?,
            text: None,
            row: None,
        })
    }

    // The members joined, in a text that its copies share.
    fn joined_shared(&self) -> Result<FieldValue, AllocError>
        ensures { IfOk result (λ text. text ≡ joined self.now) }
    {
        self.joined(self.alloc)?.into_shared()
    }

    /// An equal set, whose members are joined once for all times that they are asked for.
    pub fn copy_joined(&self) -> Result<TextSet, AllocError>
        ensures { IfOk result (λ copy. copy ≡ self.now) }
    {
        let text = self.joined_shared()?;
        match self.texts.clone() {
            Ok(texts) => Ok(TextSet {
                alloc: self.alloc,
                texts,
                text: Some(text),
                row: None,
            }),
            Err(error) => {
                drop(text);
                Err(error)
            }
        }
    }

    // Its members stand in a row besides.
    fn add_row(&mut self) -> Result<(), AllocError>
        ensures { OnOk result (self.new ≡ self.old) }
    {
        let row = SortedTexts::of(self.alloc, &self.texts)?;
        drop(replace(&mut self.row, Some(row)));
        Ok(())
    }

    /// The same set, whose members stand in a row besides, in which they are searched.
    pub fn in_row(mut self) -> Result<TextSet, AllocError>
        ensures { IfOk result (λ set. set ≡ self) }
    {
        match self.add_row() {
            Ok(()) => Ok(self),
            Err(error) => {
                drop(self);
                Err(error)
            }
        }
    }
}
