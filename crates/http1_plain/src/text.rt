ghost use Rattle.std.specs.Prelude.{◌≡◌, ◌≤◌, ◌↔◌, ◌++◌, [], length, IfOk, OnOk, OnErr, IfSome, IsSome};

use arrayvec::ArrayVec;
use bytes::Bytes;
use service_core::Octets;
use std::alloc::{AllocError, Global};
use std::marker::Model;

/// The most bytes that lie in the value itself: then it is no larger than one whose bytes lie elsewhere.
const FEW: usize = 24;

/// Bytes of a header's value or of a body, wherever they stand.
#[derive(Drop)]
pub(crate) struct Text {
    place: Place,
}

#[derive(Drop)]
enum Place {
    /// In the value itself. A copy takes no memory.
    Few {
        bytes: ArrayVec<u8, FEW>,
        alloc: Global,
    },
    /// In the program, or in memory that has several owners. A copy copies no byte.
    Shared {
        bytes: Bytes,
        alloc: Global,
    },
    /// In memory of their own.
    Owned(Octets),
}

impl Model for Text {
    ghost use Rattle.std.specs.Prelude.{ℕ, List};
    ghost use Rattle.http1_plain.specs.Texts.{bytes_at};

    ghost Value = { List ℕ };

    ghost view = { λ text. bytes_at text.place };
}

// The bytes of both, one behind the other.
fn joined(alloc: Global, front: &[u8], back: &[u8]) -> Result<Octets, AllocError>
    ensures { IfOk result (λ text. text ≡ front.now ++ back.now) }
{
    let mut text = Vec::with_capacity(alloc, front.len().saturating_add(back.len()))?;
    text.extend_from_slice(front)?;
    text.extend_from_slice(back)?;
    Ok(Octets::from_vec(text))
}

impl Text {
    /// The bytes, if they are so few that they lie in the value itself.
    pub(crate) fn of_few(alloc: Global, bytes: &[u8]) -> Option<Text>
        ensures same { IfSome result (λ text. text ≡ bytes.now) }
        ensures few { IsSome result ↔ (length bytes.now ≤ 24) }
    {
        match ArrayVec::try_from(bytes) {
            Ok(bytes) => Some(Text {
                place: Place::Few { bytes, alloc },
            }),
            Err(_) => None,
        }
    }

    /// The bytes, or an error where memory ran out.
    pub(crate) fn of(alloc: Global, bytes: &[u8]) -> Result<Text, AllocError>
        ensures { IfOk result (λ text. text ≡ bytes.now) }
    {
        match Text::of_few(alloc, bytes) {
            Some(text) => Ok(text),
            None => Ok(Text::from_octets(Octets::of(alloc, bytes)?)),
        }
    }

    /// These bytes, which takes no memory.
    pub(crate) fn from_octets(bytes: Octets) -> Text
        ensures { result ≡ bytes }
    {
        Text {
            place: Place::Owned(bytes),
        }
    }

    /// These bytes, which others may share. It takes no memory.
    pub(crate) fn from_shared(alloc: Global, bytes: Bytes) -> Text
        ensures { result ≡ bytes }
    {
        Text {
            place: Place::Shared { bytes, alloc },
        }
    }

    /// The same bytes, of which a copy takes no memory.
    pub(crate) fn into_shared(self) -> Result<Text, AllocError>
        ensures { IfOk result (λ text. text ≡ self) }
    {
        let Text { place } = self;
        match place {
            Place::Few { bytes, alloc } => Ok(Text {
                place: Place::Few { bytes, alloc },
            }),
            Place::Shared { bytes, alloc } => Ok(Text::from_shared(alloc, bytes)),
            Place::Owned(bytes) => {
                let alloc = bytes.allocator();
                let bytes = Bytes::from_vec(bytes.into_vec())?;
                Ok(Text::from_shared(alloc, bytes))
            }
        }
    }

    /// The bytes go behind these, or nothing changes.
    pub(crate) fn push_all(&mut self, more: &[u8]) -> Result<(), AllocError>
        ensures ok { OnOk result (self.new ≡ self.old ++ more.now) }
        ensures err { OnErr result (self.new ≡ self.old) }
    {
        match &mut self.place {
            Place::Owned(bytes) => bytes.push_all(more),
            Place::Few { bytes, alloc } => {
                self.place = Place::Owned(joined(*alloc, bytes.as_slice(), more)?);
                Ok(())
            }
            Place::Shared { bytes, alloc } => {
                self.place = Place::Owned(joined(*alloc, bytes.as_slice(), more)?);
                Ok(())
            }
        }
    }

    pub(crate) fn as_bytes(&self) -> &[u8]
        ensures { result.now ≡ self.now }
    {
        match &self.place {
            Place::Few { bytes, alloc: _ } => bytes.as_slice(),
            Place::Shared { bytes, alloc: _ } => bytes.as_slice(),
            Place::Owned(bytes) => bytes.as_bytes(),
        }
    }

    /// Equal bytes, or an error where memory ran out. They share what these share.
    pub(crate) fn copy(&self) -> Result<Text, AllocError>
        ensures { IfOk result (λ copy. copy ≡ self.now) }
    {
        match &self.place {
            Place::Few { bytes, alloc } => Text::of(*alloc, bytes.as_slice()),
            Place::Shared { bytes, alloc } => Ok(Text::from_shared(*alloc, bytes.clone()?)),
            Place::Owned(bytes) => Ok(Text::from_octets(bytes.copy()?)),
        }
    }
}
