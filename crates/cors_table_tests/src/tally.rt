//! How often each kind of answer came.

use cors_plain::{Response, Verdict};
use cors_rules::CorsError;
use service_core::Octets;

/// An answer's bytes, and whether it is an error's.
pub(crate) type Outcome = (bool, Octets);

/// The numbers of a policy, a reply and a request in the table.
pub(crate) type Place = (usize, usize, usize);

/// How often each kind of answer came, and where the middleware's answer was first another than that of the plain program.
#[derive(Clone, Copy, PartialEq, Eq, Default)]
pub(crate) struct Tally {
    pub(crate) pairs: u32,
    pub(crate) first_other: Option<Place>,
    /// Of the bytes of all answers, one after another.
    pub(crate) digest: u32,
    pub(crate) granted: u32,
    pub(crate) not_granted: u32,
    pub(crate) preflights: u32,
    pub(crate) no_origin: u32,
    pub(crate) origin_not_allowed: u32,
    pub(crate) method_not_allowed: u32,
    pub(crate) bad_headers: u32,
    pub(crate) headers_not_allowed: u32,
    pub(crate) blocked: u32,
    pub(crate) other_refusals: u32,
}

const ERRORS: [CorsError; 8] = [
    CorsError::WildcardOrigin,
    CorsError::MissingOrigin,
    CorsError::MissingRequestMethod,
    CorsError::BadRequestMethod,
    CorsError::BadRequestHeaders,
    CorsError::OriginNotAllowed,
    CorsError::MethodNotAllowed,
    CorsError::HeadersNotAllowed,
];

fn is_told_by(error: CorsError, body: &[u8]) -> bool {
    error.text().as_bytes() == body
}

// The first of the errors that the body tells.
fn told_of(errors: &[CorsError], body: &[u8]) -> Option<CorsError> {
    for error in errors {
        if is_told_by(*error, body) {
            return Some(*error);
        }
    }
    None
}

fn error_of(body: &[u8]) -> Option<CorsError> {
    told_of(&ERRORS, body)
}

fn count(number: &mut u32) {
    *number = number.saturating_add(1);
}

// The digest with one more byte.
fn and_byte(digest: u32, byte: u8) -> u32 {
    digest.wrapping_mul(31).wrapping_add(u32::from(byte))
}

impl Tally {
    /// One more answer goes into the digest: its bytes, and 1 where it is an error's.
    pub(crate) fn digest_answer(&mut self, outcome: &Outcome) {
        let mut digest = self.digest;
        for byte in outcome.1.as_bytes() {
            digest = and_byte(digest, *byte);
        }
        self.digest = and_byte(digest, u8::from(outcome.0));
    }

    // One more refusal of a preflight.
    fn count_refusal(&mut self, error: Option<CorsError>) {
        match error {
            Some(CorsError::MissingOrigin) => count(&mut self.no_origin),
            Some(CorsError::OriginNotAllowed) => count(&mut self.origin_not_allowed),
            Some(CorsError::MethodNotAllowed) => count(&mut self.method_not_allowed),
            Some(CorsError::BadRequestHeaders) => count(&mut self.bad_headers),
            Some(CorsError::HeadersNotAllowed) => count(&mut self.headers_not_allowed),
            _ => count(&mut self.other_refusals),
        }
    }

    // One more request that is no preflight and is answered here.
    fn count_block(&mut self, error: Option<CorsError>) {
        match error {
            Some(CorsError::OriginNotAllowed) => count(&mut self.blocked),
            _ => count(&mut self.other_refusals),
        }
    }

    // One more request that is answered here.
    fn count_answer(&mut self, response: &Response, is_preflight: bool) {
        let error = error_of(response.body.as_bytes());
        if !is_preflight {
            self.count_block(error);
        } else if response.status == 200 {
            count(&mut self.preflights);
        } else {
            self.count_refusal(error);
        }
    }

    // One more request that is handed on.
    fn count_grant(&mut self, is_granted: bool) {
        if is_granted {
            count(&mut self.granted);
        } else {
            count(&mut self.not_granted);
        }
    }

    /// One more pair, with what becomes of the request.
    pub(crate) fn count_pair(&mut self, verdict: &Verdict, is_preflight: bool) {
        count(&mut self.pairs);
        match verdict {
            Verdict::HandedOn(grant) => self.count_grant(grant.is_some()),
            Verdict::Answered(response) => self.count_answer(response, is_preflight),
        }
    }

    /// The middleware's answer at the place is another than that of the plain program.
    pub(crate) fn note_other(&mut self, place: Place) {
        if self.first_other.is_none() {
            self.first_other = Some(place);
        }
    }
}
