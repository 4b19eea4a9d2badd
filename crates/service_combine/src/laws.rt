//! What holds of combinators, whatever their parts.
ghost use Rattle.std.specs.Prelude.{Err};
ghost use Rattle.service_core.specs.Meaning.{Follows, Within};
ghost use Rattle.service_combine.specs.Meaning.{Errs, IsErr, OnlyErrs, OrRefused};
ghost use Rattle.service_combine.specs.Same.{Alike, IsThrough, MeansSame};
ghost use Rattle.service_combine.specs.Shown.{and_then_first, and_then_second, map_closure, map_part, then_first, then_second};

use crate::{AndThenService, Map, ThenService};
use service_core::{NoMemory, Service};

/// `and_then` is associative, in what calls may give and in what readiness may answer, over parts that mean the same.
pub fn and_then_associative<A, B, C, Req>(
    _left: &AndThenService<AndThenService<A, B, Req>, C, Req>,
    _right: &AndThenService<A, AndThenService<B, C, A::Response>, Req>,
)
where
    Req: Drop,
    A: Service<Req, Response: Drop, Error: NoMemory> + Drop,
    B: Service<A::Response, Error = A::Error> + Drop,
    C: Service<B::Response, Error = A::Error> + Drop,
    requires first { MeansSame A.Service (and_then_first (and_then_first _left.now)) (and_then_first _right.now) }
    requires second { MeansSame B.Service (and_then_second (and_then_first _left.now)) (and_then_first (and_then_second _right.now)) }
    requires third { MeansSame C.Service (and_then_second _left.now) (and_then_second (and_then_second _right.now)) }
    ensures answers { (q : Req) → Alike
        (⟦<AndThenService<AndThenService<A, B, Req>, C, Req> as Service<Req>>⟧.may _left.now q)
        (⟦<AndThenService<A, AndThenService<B, C, A::Response>, Req> as Service<Req>>⟧.may _right.now q) }
    ensures readiness { Alike
        (⟦<AndThenService<AndThenService<A, B, Req>, C, Req> as Service<Req>>⟧.may_ready _left.now)
        (⟦<AndThenService<A, AndThenService<B, C, A::Response>, Req> as Service<Req>>⟧.may_ready _right.now) }
{}

/// Mapping with one closure and then with another gives what mapping once with their composition gives, over parts that
/// mean the same.
pub fn map_composes<A, F, G, H, Req, Mid, Res>(
    _twice: &Map<Map<A, F, Req, Mid>, G, Req, Res>,
    _once: &Map<A, H, Req, Res>,
)
where
    Req: Drop,
    A: Service<Req, Error: NoMemory>,
    F: Fn(A::Response) -> Mid + Drop,
    G: Fn(Mid) -> Res + Drop,
    H: Fn(A::Response) -> Res + Drop,
    requires part { MeansSame A.Service (map_part (map_part _twice.now)) (map_part _once.now) }
    requires composition { IsThrough (F.post (map_closure (map_part _twice.now))) (G.post (map_closure _twice.now))
        (H.post (map_closure _once.now)) }
    ensures answers { (q : Req) → Alike (⟦<Map<Map<A, F, Req, Mid>, G, Req, Res> as Service<Req>>⟧.may _twice.now q)
        (⟦<Map<A, H, Req, Res> as Service<Req>>⟧.may _once.now q) }
    ensures readiness { Alike (⟦<Map<Map<A, F, Req, Mid>, G, Req, Res> as Service<Req>>⟧.may_ready _twice.now)
        (⟦<Map<A, H, Req, Res> as Service<Req>>⟧.may_ready _once.now) }
{}

/// Where the first part gives nothing but errors for a request, `and_then` gives one of them, and `then` gives what the
/// second part gives for one of them, want of memory aside.
pub fn errors_pass<A, B, C, Req>(
    _and_then: &AndThenService<A, B, Req>,
    _then: &ThenService<A, C, Req>,
)
where
    Req: Drop,
    A: Service<Req, Error: NoMemory> + Drop,
    B: Service<A::Response, Error = A::Error> + Drop,
    C: Service<Result<A::Response, A::Error>, Error = A::Error> + Drop,
    ensures and_then { (q : Req) → OnlyErrs (A.may (and_then_first _and_then.now) q)
        → Within (⟦<AndThenService<A, B, Req> as Service<Req>>⟧.may _and_then.now q)
        (OrRefused (Follows (Errs (A.may (and_then_first _and_then.now) q)) IsErr) A.Error.refusal) }
    ensures and_then_may { (q : Req) (e : A.Error) → A.may (and_then_first _and_then.now) q (Err e)
        → ⟦<AndThenService<A, B, Req> as Service<Req>>⟧.may _and_then.now q (Err e) }
    ensures then { (q : Req) → OnlyErrs (A.may (then_first _then.now) q)
        → Within (⟦<ThenService<A, C, Req> as Service<Req>>⟧.may _then.now q)
        (OrRefused (Follows (Errs (A.may (then_first _then.now) q)) (λ e. C.may (then_second _then.now) (Err e))) A.Error.refusal) }
    ensures then_may { (q : Req) (e : A.Error) → A.may (then_first _then.now) q (Err e)
        → Within (C.may (then_second _then.now) (Err e)) (⟦<ThenService<A, C, Req> as Service<Req>>⟧.may _then.now q) }
{}
