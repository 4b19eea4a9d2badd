ghost use Rattle.std.specs.Prelude.{◌≡◌, map, All};
ghost use Rattle.server_commands.specs.Replies.{asked_by, knows_of, raises_of, word_when};

use crate::raiser::Raiser;
use std::alloc::{AllocError, Global};

// The flags of the replies to the commands that were given and not forgotten. Each is raised once the commands have been carried
// out, and none before.
#[derive(Drop)]
pub(crate) struct Owed {
    raisers: Vec<Raiser>,
    is_settled: bool,
    ghost known: { All (λ raiser. knows_of raiser ≡ word_when is_settled) raisers.items },
}

impl Owed {
    ghost use Rattle.std.specs.Prelude.{◌≡◌, ◌<◌, ◌∷◌, ◌++◌, [], false, map, vec_capacity, vec_len, All, OnOk};
    ghost use Rattle.server_commands.specs.Replies.{asked_by, knows_of, raises_of, unraised};

    // None is owed.
    pub(crate) fn new(alloc: Global) -> Owed
        ensures none { result.raisers.items ≡ [] }
    {
        Owed {
            raisers: Vec::new(alloc),
            is_settled: false,
        }
    }

    // Forgets those that are raised, and makes room for one more where memory allows it.
    pub(crate) fn make_room(&mut self) -> Result<(), AllocError>
        ensures left { self.new.raisers.items ≡ unraised self.old.raisers.items }
        ensures unsettled { self.new.is_settled ≡ false }
        ensures room { OnOk result (vec_len self.new.raisers < vec_capacity self.new.raisers) }
    {
        self.forget_raised();
        self.raisers.reserve(1)
    }

    // Forgets those that are raised.
    fn forget_raised(&mut self)
        ensures left { self.new.raisers.items ≡ unraised self.old.raisers.items }
        ensures unsettled { self.new.is_settled ≡ false }
    {
        if self.is_settled {
            self.raisers.clear();
            self.is_settled = false;
        }
    }

    // Puts one behind the others, where there is room.
    pub(crate) fn push_reserved(&mut self, raiser: Raiser)
        requires unraised { knows_of raiser ≡ 0 }
        requires unsettled { self.old.is_settled ≡ false }
        requires room { vec_len self.old.raisers < vec_capacity self.old.raisers }
        ensures last { self.new.raisers.items ≡ self.old.raisers.items ++ raiser ∷ [] }
    {
        self.raisers.push_reserved(raiser);
    }

    // Raises all.
    pub(crate) fn settle(&mut self)
        ensures raised { All (λ raiser. knows_of raiser ≡ 1) self.new.raisers.items }
        ensures same { map raises_of self.new.raisers.items ≡ map raises_of self.old.raisers.items }
        ensures commands { map asked_by self.new.raisers.items ≡ map asked_by self.old.raisers.items }
    {
        if self.is_settled {
            return;
        }
        raise_all(&mut self.raisers);
        self.is_settled = true;
    }
}

// Raises each of these.
fn raise_all(raisers: &mut [Raiser])
    ensures raised { All (λ raiser. knows_of raiser ≡ 1) raisers.new }
    ensures same { map raises_of raisers.new ≡ map raises_of raisers.old }
    ensures commands { map asked_by raisers.new ≡ map asked_by raisers.old }
{
    for raiser in raisers.iter_mut() {
        raiser.raise();
    }
}
