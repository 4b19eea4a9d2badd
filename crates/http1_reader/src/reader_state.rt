//! What a reader keeps between its steps.
ghost use Rattle.std.specs.Prelude.{◌≡◌, ◌==◌, ◌≤◌, ℕ, List, [], length, IfOk, OnOk, OnErr, if◌then◌else◌};
ghost use Rattle.http1_grammar.specs.Limits.{Limits as Both};
ghost use Rattle.http1_grammar.specs.Reading.{at_head, fed};
ghost use Rattle.http1_head.specs.Steps.{stage_by};
ghost use Rattle.http1_reader.specs.Readers.{stage_of, unread_of, reading_of, IsKnown, Stands, IsSound, Gives, Tells, HoldsLittle};

use crate::Step;
use crate::decode::{Decoded, Part, decode};
use http1_head::{BodyFraming, NextHead, empty_lines, head_at_front};
use http1_plain::Limits;
use service_core::Octets;
use std::alloc::{AllocError, Global};
use std::mem;

/// Where a reader stands.
#[derive(Clone, Copy)]
pub(crate) enum Place {
    /// At a head, of which so many bytes were looked at.
    Head(usize),
    /// At a body of this length.
    Sized(usize),
    /// At this part of a body in chunks.
    Chunks(Part),
    /// Behind a refusal with this status.
    Refused(u16),
}

/// The bytes that came, of which those from `start` on are unread, and the data of the chunks that went before them.
#[derive(Drop)]
pub(crate) struct ReaderState {
    limits: Limits,
    bytes: Octets,
    start: usize,
    place: Place,
    decoded: Octets,
}

// Where the body behind a head is read.
fn place_of(body: BodyFraming) -> Place
    ensures stage { stage_of [] result ≡ stage_by body }
    ensures begun { (limits : Both) (unread data' : List ℕ) → IsKnown limits unread data' result }
{
    match body {
        BodyFraming::Sized(size) => Place::Sized(size),
        BodyFraming::Chunked => Place::Chunks(Part::Line(0)),
    }
}

// How many bytes behind the empty lines were looked at.
fn seen_behind(skipped: usize, seen: usize) -> usize
    ensures { result ≡ (if skipped == 0 then seen else 0) }
{
    if skipped == 0 { seen } else { 0 }
}

impl ReaderState {
    pub(crate) fn new(alloc: Global, limits: Limits) -> ReaderState
        ensures sound { IsSound result }
        ensures limits { result.limits ≡ limits }
        ensures unread { unread_of result ≡ [] }
        ensures stage { stage_of result.decoded result.place ≡ at_head }
    {
        ReaderState {
            limits,
            bytes: Octets::new(alloc),
            start: 0,
            place: Place::Head(0),
            decoded: Octets::new(alloc),
        }
    }

    pub(crate) fn limits(&self) -> Limits
        ensures { result ≡ self.now.limits }
    {
        self.limits
    }

    pub(crate) fn unread(&self) -> &[u8]
        requires { IsSound self.now }
        ensures { result.now ≡ unread_of self.now }
    {
        &self.bytes.as_bytes()[self.start..]
    }

    pub(crate) fn into_unread(self) -> Octets
        requires { IsSound self }
        ensures { result ≡ unread_of self }
    {
        let ReaderState {
            mut bytes,
            start,
            ..
        } = self;
        bytes.drop_front(start);
        bytes
    }

    // The bytes before the unread ones go, where they are more than half.
    fn cut(&mut self)
        requires { IsSound self.old }
        ensures sound { IsSound self.new }
        ensures same { reading_of self.new ≡ reading_of self.old }
    {
        if self.start > self.bytes.len() / 2 {
            self.bytes.drop_front(self.start);
            self.start = 0;
        }
    }

    pub(crate) fn feed(&mut self, piece: &[u8]) -> Result<(), AllocError>
        requires { IsSound self.old }
        ensures sound { IsSound self.new }
        ensures ok { OnOk result (reading_of self.new ≡ fed (reading_of self.old) piece.now) }
        ensures err { OnErr result (reading_of self.new ≡ reading_of self.old) }
    {
        self.cut();
        self.bytes.push_all(piece)
    }

    fn next_head(&mut self, seen: usize) -> Result<Step, AllocError>
        requires stands { Stands self.old }
        requires place { self.old.place ≡ Place.Head seen }
        ensures stands { Stands self.new }
        ensures step { IfOk result (λ step. Gives (reading_of self.old) step (reading_of self.new)) }
        ensures err { OnErr result (reading_of self.new ≡ reading_of self.old) }
    {
        let alloc = self.bytes.allocator();
        let unread = &self.bytes.as_bytes()[self.start..];
        let skipped = empty_lines(unread);
        let text = &unread[skipped..];
        match head_at_front(alloc, self.limits, text, seen_behind(skipped, seen))? {
            NextHead::Nothing => {
                self.place = Place::Head(text.len());
                self.start += skipped;
                Ok(Step::NeedMore)
            }
            NextHead::Refused(status) => {
                self.place = Place::Refused(status);
                Ok(Step::Refused(status))
            }
            NextHead::Found(head, body, used) => {
                self.start += skipped + used;
                self.place = place_of(body);
                self.decoded.truncate(0);
                Ok(Step::Head(head))
            }
        }
    }

    fn next_sized(&mut self, size: usize) -> Result<Step, AllocError>
        requires stands { Stands self.old }
        requires place { self.old.place ≡ Place.Sized size }
        ensures stands { Stands self.new }
        ensures step { IfOk result (λ step. Gives (reading_of self.old) step (reading_of self.new)) }
        ensures err { OnErr result (reading_of self.new ≡ reading_of self.old) }
    {
        let unread = &self.bytes.as_bytes()[self.start..];
        if unread.len() < size {
            return Ok(Step::NeedMore);
        }
        let body = Octets::of(self.bytes.allocator(), &unread[..size])?;
        self.start += size;
        self.place = Place::Head(0);
        Ok(Step::Body(body))
    }

    fn next_chunks(&mut self, part: Part) -> Result<Step, AllocError>
        requires stands { Stands self.old }
        requires place { self.old.place ≡ Place.Chunks part }
        requires fits { length self.old.decoded ≤ self.old.limits.body }
        ensures stands { Stands self.new }
        ensures step { IfOk result (λ step. Gives (reading_of self.old) step (reading_of self.new)) }
        ensures err { OnErr result (reading_of self.new ≡ reading_of self.old) }
    {
        let alloc = self.bytes.allocator();
        let len = self.decoded.len();
        let unread = &self.bytes.as_bytes()[self.start..];
        match decode(self.limits, unread, &mut self.decoded, part) {
            Ok(Decoded::Open(settled, part)) => {
                self.start += settled;
                self.place = Place::Chunks(part);
                Ok(Step::NeedMore)
            }
            Ok(Decoded::Refused(status)) => {
                self.decoded = Octets::new(alloc);
                self.place = Place::Refused(status);
                Ok(Step::Refused(status))
            }
            Ok(Decoded::Whole(used)) => {
                let body = mem::replace(&mut self.decoded, Octets::new(alloc));
                self.start += used;
                self.place = Place::Head(0);
                Ok(Step::Body(body))
            }
            Err(error) => {
                self.decoded.truncate(len);
                Err(error)
            }
        }
    }

    fn take_step(&mut self) -> Result<Step, AllocError>
        requires { IsSound self.old }
        ensures stands { Stands self.new }
        ensures step { IfOk result (λ step. Gives (reading_of self.old) step (reading_of self.new)) }
        ensures err { OnErr result (reading_of self.new ≡ reading_of self.old) }
    {
        match self.place {
            Place::Head(seen) => self.next_head(seen),
            Place::Sized(size) => self.next_sized(size),
            Place::Chunks(part) => self.next_chunks(part),
            Place::Refused(status) => Ok(Step::Refused(status)),
        }
    }

    pub(crate) fn next(&mut self) -> Result<Step, AllocError>
        requires { IsSound self.old }
        ensures sound { IsSound self.new }
        ensures step { IfOk result (λ step. Gives (reading_of self.old) step (reading_of self.new)) }
        ensures status { IfOk result Tells }
        ensures bound { IfOk result (HoldsLittle (reading_of self.new)) }
        ensures err { OnErr result (reading_of self.new ≡ reading_of self.old) }
    {
        let step = self.take_step()?;
        Ok(step)
    }
}
