//! What the definitions say, in plain words.
ghost use Rattle.std.specs.Prelude.{◌≡◌, ◌<◌, ◌++◌, ◌&&◌, ℕ, List, [], true, false, Some, Ok};
ghost use Rattle.http1_grammar.specs.Answers as grammar;
ghost use Rattle.http1_grammar.specs.Answers.{after, bare, done, is_answered, up, wire};
ghost use Rattle.http1_grammar.specs.Body.{body, malformed, whole};
ghost use Rattle.http1_grammar.specs.Head.{Head};
ghost use Rattle.http1_grammar.specs.Next.{found, next, refuse};
ghost use Rattle.http1_grammar.specs.Tokens.{closes, expects, upgrades};
ghost use Rattle.http1_grammar.specs.Wire.{Response as Parts, refusal};
ghost use Rattle.service_core.specs.declared.ended.How.TheVariants.{Served};
ghost use Rattle.service_core.specs.declared.peer.Peer.{Peer};
ghost use Rattle.http1_dispatcher.specs.Connecting.{MayServe, hands_of, relations_of};
ghost use Rattle.http1_dispatcher.specs.Requests.{AreFunctions, Functions, MayCome, served};
ghost use Rattle.http1_dispatcher.specs.declared.rules.Rules.{Rules};

use http_flow::{Framed, Handed, HttpFlow};
use http1_plain::{ErrorResponse, Request, Response};
use service_core::{Ended, Link, Service};

/// The response to a request comes first, behind `100 Continue` where its head waits for that and it may come, and those to the
/// bytes behind it follow (RFC 9112, section 9.3; RFC 9110, section 10.1.1).
pub fn answers_come_in_order()
    ensures { (rules : Rules) (peer : Peer) (f : Functions) (head : Head) (request : grammar.Request Peer) (bytes rest told data' behind : List ℕ)
        → 0 < rules.limits.head → next rules.limits bytes ≡ found head rest → (upgrades head && rules.has_upgrade) ≡ false
        → MayCome f.expect peer head request told → body rules.limits head rest ≡ whole data' behind
        → closes rules.keeps_alive head ≡ false
        → served rules peer f bytes
        ≡ after (told ++ wire head (f.handler (record request { body = data' })) false) (served rules peer f behind) }
{}

/// Nothing is answered behind a response that closes (RFC 9112, section 9.6).
pub fn nothing_follows_a_closing_answer()
    ensures { (rules : Rules) (peer : Peer) (f : Functions) (head : Head) (request : grammar.Request Peer) (bytes rest told data' behind : List ℕ)
        → 0 < rules.limits.head → next rules.limits bytes ≡ found head rest → (upgrades head && rules.has_upgrade) ≡ false
        → MayCome f.expect peer head request told → body rules.limits head rest ≡ whole data' behind
        → closes rules.keeps_alive head ≡ true
        → served rules peer f bytes ≡ (told ++ wire head (f.handler (record request { body = data' })) true, done) }
{}

/// Nothing is answered behind a refusal (RFC 9112, section 2.2).
pub fn nothing_follows_a_refusal()
    ensures { (rules : Rules) (peer : Peer) (f : Functions) (bytes : List ℕ) (status : ℕ)
        → 0 < rules.limits.head → next rules.limits bytes ≡ refuse status → served rules peer f bytes ≡ (refusal status, done) }
{}

/// Nothing is answered behind a body that is refused.
pub fn nothing_follows_a_refused_body()
    ensures { (rules : Rules) (peer : Peer) (f : Functions) (head : Head) (request : grammar.Request Peer) (bytes rest told : List ℕ) (status : ℕ)
        → 0 < rules.limits.head → next rules.limits bytes ≡ found head rest → (upgrades head && rules.has_upgrade) ≡ false
        → MayCome f.expect peer head request told → body rules.limits head rest ≡ malformed status
        → served rules peer f bytes ≡ (told ++ refusal status, done) }
{}

/// Nothing is answered behind an expectation that is not met (RFC 9110, section 10.1.1).
pub fn nothing_follows_a_refused_expectation()
    ensures { (rules : Rules) (peer : Peer) (f : Functions) (head : Head) (response : Parts) (bytes rest : List ℕ)
        → 0 < rules.limits.head → next rules.limits bytes ≡ found head rest → (upgrades head && rules.has_upgrade) ≡ false
        → expects head ≡ true → f.expect (bare head peer) ≡ is_answered response
        → served rules peer f bytes ≡ (wire head response true, done) }
{}

/// A head that names `upgrade` is answered by nothing where that is allowed, and all that follows it is another protocol's
/// (RFC 9110, section 7.8).
pub fn an_upgrade_ends_the_answers()
    ensures { (rules : Rules) (peer : Peer) (f : Functions) (head : Head) (bytes rest : List ℕ)
        → 0 < rules.limits.head → next rules.limits bytes ≡ found head rest → (upgrades head && rules.has_upgrade) ≡ true
        → served rules peer f bytes ≡ ([], up head rest) }
{}

/// Without an upgrade service the answers to any bytes end as done.
pub fn nothing_is_upgraded_unasked()
    ensures { (rules : Rules) (peer : Peer) (f : Functions) (bytes : List ℕ)
        → rules.has_upgrade ≡ false → (served rules peer f bytes).1 ≡ done }
{}

/// A connection that ended as served, over a link of which nothing was taken before, has written all answers to what the link
/// held.
pub fn served_writes<L, S, X, U>()
where
    L: Link,
    S: Service<Request, Response = Response, Error: ErrorResponse>,
    X: Service<Request, Response = Request, Error: ErrorResponse>,
    U: Service<(Request, Framed<L>), Response = Handed<L>>,
    ensures { (flow : HttpFlow S X U) (rules : Rules) (peer : Peer) (link : L) (ended : Ended L)
        → MayServe {X = S.Error} L.Link (relations_of S.Service S.Error.response X.Service X.Error.response flow) (hands_of U.Service flow) rules peer link (Ok ended)
        → ended.how ≡ Served
        → (f : Functions) → AreFunctions (relations_of S.Service S.Error.response X.Service X.Error.response flow) f
        → (held : List ℕ) → (L.identity link).held ≡ Some held → L.taken link ≡ 0 → L.written link ≡ Some []
        → L.written ended.link ≡ Some (served rules peer f held).0 }
{}
