//! The headers of a request, as they stand in its text.
ghost use Rattle.std.specs.Prelude.{◌≡◌, ◌<◌, ◌+◌, ◌==◌, ◌++◌, ◌∷◌, [], length, All, IfOk, OnOk, OnErr, IfSome, option_copied};
ghost use Rattle.http_header.specs.FieldName.{IsFieldName};
ghost use Rattle.http_header.specs.Token.{lowercase};
ghost use Rattle.http1_grammar.specs.Headers.{get, get_all};
ghost use Rattle.http1_plain.specs.Fields.{IsPair, IsValue, lowered};
ghost use Rattle.http1_plain.specs.Spanned.{headers_at, IsSpanOf, StandsAt};

use crate::{FieldValue, HeaderLines, HeaderList, ValuesOf, is_name};
use http_header::{HeaderName, HeaderNameError};
use httparse::spans::{HeaderSpan, Span};
use service_core::Octets;
use std::alloc::{AllocError, Global};
use std::marker::Model;

/// The headers of a request in order (RFC 9110, section 5.3; actix-http, `HeaderMap`): one text, and where in it each name and
/// value stands. So it takes two pieces of memory however many headers it has, and what is looked up is lent from the text.
/// Names keep the case in which they were sent, and are compared in any. A contract sees the pairs of their names, in lower
/// case, and values. Where headers are to be changed, `to_list` gives a list that can be.
#[derive(Drop)]
pub struct RequestHeaders {
    text: Octets,
    spans: Vec<HeaderSpan>,
}

impl Model for RequestHeaders {
    ghost use Rattle.std.specs.Prelude.{List, All};
    ghost use Rattle.http1_grammar.specs.Headers.{Header};
    ghost use Rattle.http1_plain.specs.Spanned.{headers_at, IsSpanOf};

    ghost Value = { List Header };

    ghost view = { λ h. headers_at h.text h.spans.items };

    ghost invariant = { λ h. All (IsSpanOf h.text) h.spans.items };
}

// The bytes go behind the text, or nothing changes. The answer is where they stand.
fn push_span(text: &mut Octets, bytes: &[u8]) -> Result<Span, AllocError>
    ensures start { IfOk result (λ span. span.start ≡ length text.old) }
    ensures end { IfOk result (λ span. span.end ≡ length text.old + length bytes.now) }
    ensures ok { OnOk result (text.new ≡ text.old ++ bytes.now) }
    ensures err { OnErr result (text.new ≡ text.old) }
{
    let start = text.len();
    text.push_all(bytes)?;
    Ok(Span {
        start,
        end: text.len(),
    })
}

// The first value of the name.
fn first_value<'a>(text: &'a [u8], spans: &[HeaderSpan], name: &[u8]) -> Option<&'a [u8]>
    requires spans { All (IsSpanOf text.now) spans.now }
    requires name { lowercase name.now ≡ name.now }
    ensures value { option_copied result ≡ get (headers_at text.now spans.now) name.now }
    ensures valid { IfSome result (λ value. IsValue value.now) }
{
    for span in spans {
        if is_name(span.name.of(text), name) {
            return Some(span.value.of(text));
        }
    }
    None
}

// The name that the bytes are, in lower case.
fn name_of(alloc: Global, bytes: &[u8]) -> Result<HeaderName, AllocError>
    requires { IsFieldName bytes.now }
    ensures { IfOk result (λ name. name ≡ lowercase bytes.now) }
{
    match HeaderName::from_bytes(alloc, bytes) {
        Ok(name) => Ok(name),
        Err(HeaderNameError::Invalid) => unreachable!(),
        Err(HeaderNameError::OutOfMemory) => Err(AllocError),
    }
}

// A copy of the pair goes last.
fn append_copy(list: &mut HeaderList, name: &[u8], value: &[u8]) -> Result<(), AllocError>
    requires name { IsFieldName name.now }
    requires value { IsValue value.now }
    ensures { OnOk result (list.new ≡ list.old ++ lowered (name.now, value.now) ∷ []) }
{
    let alloc = list.allocator();
    let name = name_of(alloc, name)?;
    list.append(name, FieldValue::of_field_bytes(alloc, value)?)
}

impl RequestHeaders {
    /// No headers, which takes no memory.
    pub fn new(alloc: Global) -> RequestHeaders
        ensures { result ≡ [] }
    {
        RequestHeaders {
            text: Octets::new(alloc),
            spans: Vec::new(alloc),
        }
    }

    /// No headers, with the memory for so many, whose names and values have so many bytes together.
    pub fn with_capacity(
        alloc: Global,
        headers: usize,
        bytes: usize,
    ) -> Result<RequestHeaders, AllocError>
        ensures { IfOk result (λ headers. headers ≡ []) }
    {
        let text = Octets::from_vec(Vec::with_capacity(alloc, bytes)?);
        Ok(RequestHeaders {
            text,
            spans: Vec::with_capacity(alloc, headers)?,
        })
    }

    /// The headers that the spans cover, over a copy of the text, or an error where memory ran out.
    pub fn of_spans(
        alloc: Global,
        text: &[u8],
        spans: &[HeaderSpan],
    ) -> Result<RequestHeaders, AllocError>
        requires { All (IsSpanOf text.now) spans.now }
        ensures { IfOk result (λ headers. headers ≡ headers_at text.now spans.now) }
    {
        let text = Octets::of(alloc, text)?;
        Ok(RequestHeaders {
            text,
            spans: Vec::from_slice(alloc, spans)?,
        })
    }

    /// The headers of the list, or an error where memory ran out.
    pub fn from_list(list: &HeaderList) -> Result<RequestHeaders, AllocError>
        ensures { IfOk result (λ headers. headers ≡ list.now) }
    {
        let mut headers = RequestHeaders::new(list.allocator());
        for (name, value) in list.entries() {
            headers.append(name, value)?;
        }
        Ok(headers)
    }

    /// How many headers there are.
    #[inline(always)]
    pub fn len(&self) -> usize
        ensures { result ≡ length self.now }
    {
        self.spans.len()
    }

    /// Whether there is no header.
    pub fn is_empty(&self) -> bool
        ensures { result ≡ (length self.now == 0) }
    {
        self.spans.is_empty()
    }

    /// The pair goes last, or nothing changes.
    pub fn append(&mut self, name: &HeaderName, value: &FieldValue) -> Result<(), AllocError>
        ensures ok { OnOk result (self.new ≡ self.old ++ (name.now, value.now) ∷ []) }
        ensures err { OnErr result (self.new ≡ self.old) }
    {
        let name = push_span(&mut self.text, name.as_bytes())?;
        let value = push_span(&mut self.text, value.as_field_bytes())?;
        self.spans.push(HeaderSpan { name, value })?;
        Ok(())
    }

    /// The name, in the case in which it was sent, and the value of the header at the place.
    #[inline(always)]
    pub fn line(&self, place: usize) -> (&[u8], &[u8])
        requires { place < length self.now }
        ensures at { StandsAt self.now place (lowered (result.0.now, result.1.now)) }
        ensures valid { IsValue result.1.now }
    {
        let span = self.spans[place];
        let text = self.text.as_bytes();
        (span.name.of(text), span.value.of(text))
    }

    /// The names, in the case in which they were sent, and values in order, one after another.
    pub fn iter(&self) -> HeaderLines<'_>
        ensures lines { result ≡ self.now }
        ensures valid { All IsPair self.now }
    {
        HeaderLines::new(self.text.as_bytes(), &self.spans)
    }

    /// The values of the name in order, one after another.
    #[inline(always)]
    pub fn get_all<'a>(&'a self, name: &'a HeaderName) -> ValuesOf<'a>
        ensures values { result ≡ get_all self.now name.now }
        ensures valid { All IsValue (get_all self.now name.now) }
    {
        ValuesOf::new(self.text.as_bytes(), &self.spans, name)
    }

    /// The first value of the name.
    #[inline(always)]
    pub fn get(&self, name: &HeaderName) -> Option<&[u8]>
        ensures value { option_copied result ≡ get self.now name.now }
        ensures valid { IfSome result (λ value. IsValue value.now) }
    {
        first_value(self.text.as_bytes(), &self.spans, name.as_bytes())
    }

    /// Where its headers live.
    pub fn allocator(&self) -> Global {
        self.text.allocator()
    }

    /// An equal list, which shares no text with these, or an error where memory ran out.
    pub fn to_list(&self) -> Result<HeaderList, AllocError>
        ensures { IfOk result (λ list. list ≡ self.now) }
    {
        let mut list = HeaderList::with_capacity(self.allocator(), self.len())?;
        let text = self.text.as_bytes();
        for span in &self.spans {
            append_copy(&mut list, span.name.of(text), span.value.of(text))?;
        }
        Ok(list)
    }

    /// Equal headers, or an error where memory ran out.
    pub fn copy(&self) -> Result<RequestHeaders, AllocError>
        ensures { IfOk result (λ copy. copy ≡ self.now) }
    {
        let text = self.text.copy()?;
        Ok(RequestHeaders {
            text,
            spans: self.spans.clone()?,
        })
    }
}
