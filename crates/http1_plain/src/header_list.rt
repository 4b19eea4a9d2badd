ghost use Rattle.std.specs.Prelude.{◌≡◌, ◌≤◌, ◌==◌, ◌++◌, ◌∷◌, [], length, take, drop, vec_len, position, IfOk, OnOk, OnErr, option_copied};
ghost use Rattle.http1_grammar.specs.Headers.{get, get_all, is_named, insert, names, remove};
ghost use Rattle.http1_plain.specs.Singles.{IsSingle};

use crate::{Entries, FieldValue, GetAll, Names, Single};
use http_header::HeaderName;
use std::alloc::{AllocError, Global};
use std::marker::Model;

/// Headers in order (RFC 9110, section 5.3; actix-http, `HeaderMap`). A contract sees the pairs of their names, in lower case,
/// and values.
#[derive(Drop)]
pub struct HeaderList {
    entries: Vec<(HeaderName, FieldValue)>,
}

impl Model for HeaderList {
    ghost use Rattle.std.specs.Prelude.{ℕ, List};
    ghost use Rattle.http1_grammar.specs.Headers.{Header};

    ghost Value = { List Header };

    ghost view = { λ h. h.entries.items };
}

// The place of the first header of the name.
fn place_of(entries: &[(HeaderName, FieldValue)], name: &HeaderName) -> Option<usize>
    ensures { result ≡ position (is_named name.now) entries.now }
{
    let name = name.as_bytes();
    entries.iter().position(|entry| entry.0.as_bytes() == name)
}

// The headers of other names go to the front in order. The answer is how many those are.
fn others_first(headers: &mut [(HeaderName, FieldValue)], name: &HeaderName) -> usize
    ensures others { take result headers.new ≡ remove headers.old name.now }
    ensures within { result ≤ length headers.old }
    ensures len { length headers.new ≡ length headers.old }
{
    let mut kept = 0;
    for at in 0..headers.len() {
        if headers[at].0 != *name {
            headers.swap(kept, at);
            kept += 1;
        }
    }
    kept
}

// From this place on, all headers of the name go.
fn remove_from(entries: &mut Vec<(HeaderName, FieldValue)>, place: usize, name: &HeaderName)
    requires { place ≤ vec_len entries.old }
    ensures { entries.new.items
        ≡ take place entries.old.items ++ remove (drop place entries.old.items) name.now }
{
    let kept = others_first(&mut entries[place..], name);
    entries.truncate(place + kept);
}

impl HeaderList {
    /// No headers, which takes no memory.
    pub fn new(alloc: Global) -> HeaderList
        ensures { result ≡ [] }
    {
        HeaderList {
            entries: Vec::new(alloc),
        }
    }

    /// No headers, with the memory for so many.
    pub fn with_capacity(alloc: Global, capacity: usize) -> Result<HeaderList, AllocError>
        ensures { IfOk result (λ list. list ≡ []) }
    {
        Ok(HeaderList {
            entries: Vec::with_capacity(alloc, capacity)?,
        })
    }

    /// How many headers there are.
    pub fn len(&self) -> usize
        ensures { result ≡ length self.now }
    {
        self.entries.len()
    }

    /// Whether there is no header.
    pub fn is_empty(&self) -> bool
        ensures { result ≡ (length self.now == 0) }
    {
        self.entries.is_empty()
    }

    /// The headers in order.
    pub fn entries(&self) -> &[(HeaderName, FieldValue)]
        ensures { result.now ≡ self.now }
    {
        self.entries.as_slice()
    }

    /// The pair goes last, or nothing changes.
    #[inline(always)]
    pub fn append(&mut self, name: HeaderName, value: FieldValue) -> Result<(), AllocError>
        ensures ok { OnOk result (self.new ≡ self.old ++ (name, value) ∷ []) }
        ensures err { OnErr result (self.new ≡ self.old) }
    {
        self.entries.push((name, value))?;
        Ok(())
    }

    /// The value of the name, if it stands once.
    pub fn single(&self, name: &[u8]) -> Single<'_>
        ensures { IsSingle (get_all self.now name.now) result }
    {
        let mut found = Single::Missing;
        for entry in &self.entries {
            if entry.0.as_bytes() == name {
                found = found.and(entry.1.as_bytes());
            }
        }
        found
    }

    /// The first value of the name.
    pub fn get(&self, name: &HeaderName) -> Option<&FieldValue>
        ensures { option_copied result ≡ get self.now name.now }
    {
        match place_of(&self.entries, name) {
            Some(place) => Some(&self.entries[place].1),
            None => None,
        }
    }

    /// The pairs in order, one after another.
    pub fn iter(&self) -> Entries<'_>
        ensures { result ≡ self.now }
    {
        Entries::new(&self.entries)
    }

    /// The values of the name in order, one after another.
    pub fn get_all<'a>(&'a self, name: &'a HeaderName) -> GetAll<'a>
        ensures { result ≡ get_all self.now name.now }
    {
        GetAll::new(&self.entries, name)
    }

    /// Each name once, in the order of their first headers.
    pub fn names(&self) -> Names<'_>
        ensures { result ≡ names self.now }
    {
        Names::new(&self.entries)
    }

    /// All headers of the name go. The answer is how many those were.
    pub fn remove(&mut self, name: &HeaderName) -> usize
        ensures left { self.new ≡ remove self.old name.now }
        ensures gone { result ≡ length (get_all self.old name.now) }
    {
        let before = self.entries.len();
        remove_from(&mut self.entries, 0, name);
        before - self.entries.len()
    }

    /// The pair takes the place of the first of its name, and the others go. A new name goes last. Or nothing changes.
    pub fn insert(&mut self, name: HeaderName, value: FieldValue) -> Result<(), AllocError>
        ensures ok { OnOk result (self.new ≡ insert self.old name value) }
        ensures err { OnErr result (self.new ≡ self.old) }
    {
        match place_of(&self.entries, &name) {
            None => self.append(name, value),
            Some(place) => {
                remove_from(&mut self.entries, place + 1, &name);
                self.entries[place] = (name, value);
                Ok(())
            }
        }
    }

    /// Where its headers live.
    pub fn allocator(&self) -> Global {
        *self.entries.allocator()
    }

    /// An equal list, where this one lives, or an error where memory ran out.
    pub fn copy(&self) -> Result<HeaderList, AllocError>
        ensures { IfOk result (λ copy. copy ≡ self.now) }
    {
        let mut list = HeaderList::new(self.allocator());
        for (name, value) in &self.entries {
            list.append(name.clone()?, value.copy()?)?;
        }
        Ok(list)
    }
}
