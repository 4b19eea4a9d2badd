ghost use Rattle.std.specs.Prelude.{◌≡◌, IfOk};
ghost use Rattle.std.specs.Arc.{arc_value};

use std::alloc::AllocError;
use std::sync::Arc;

/// A clone of a part, beside its closure, which is shared.
pub(crate) fn copies<A: Clone, F: Drop>(part: &A, f: &Arc<F>) -> Result<(A, Arc<F>), AllocError>
    ensures { IfOk result (λ pair. A.is_clone part.now pair.0 × (arc_value pair.1 ≡ arc_value f.now)) }
{
    match part.clone() {
        Ok(part) => match Arc::try_clone(f) {
            Ok(f) => Ok((part, f)),
            Err(e) => Err(e),
        },
        Err(e) => Err(e),
    }
}
