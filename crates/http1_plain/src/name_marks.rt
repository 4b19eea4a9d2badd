//! Which names came before.
ghost use Rattle.std.specs.Prelude.{◌≡◌, ◌<◌, ◌/◌, ℕ, List, length, IsTrue, false};
ghost use Rattle.http1_plain.specs.Marks.{mark_of, has_bit, has_mark};

const WORDS: usize = 16;

/// A mark for each name. Names may share one of the 1,024 marks, so one that is set says that a name may have come, and one that
/// isn't says that it hasn't.
#[derive(Clone, Copy)]
pub(crate) struct NameMarks {
    words: [u64; WORDS],
}

// The number of the name's mark.
#[tactic(auto, using(std::proofs::lemmas::List::Sums::fold_more))]
fn mark_of(name: &[u8]) -> usize
    ensures value { result ≡ mark_of name.now }
    ensures below { result < 1024 }
{
    let mut mark = 0;
    for b in name {
        mark = (mark * 31 + usize::from(*b)) % 1024;
    }
    mark
}

// Whether the bit of this number is set.
fn has_bit(words: &[u64], at: usize) -> bool
    requires { at / 64 < length words.now }
    ensures { result ≡ has_bit words.now at }
{
    (words[at / 64] >> (at % 64)) & 1 == 1
}

// Sets the bit of this number.
fn set_bit(words: &mut [u64], at: usize)
    requires { at / 64 < length words.old }
    ensures set { IsTrue (has_bit words.new at) }
    ensures kept { (other : ℕ) → IsTrue (has_bit words.old other) → IsTrue (has_bit words.new other) }
{
    words[at / 64] |= 1 << (at % 64);
}

impl NameMarks {
    /// No mark is set.
    pub(crate) fn new() -> NameMarks
        ensures { (name : List ℕ) → has_mark result name ≡ false }
    {
        NameMarks { words: [0; WORDS] }
    }

    /// Sets the mark of the name, and tells whether it was set.
    #[tactic(auto, unfolding(crate::specs::Marks::has_mark))]
    pub(crate) fn set(&mut self, name: &[u8]) -> bool
        ensures was { result ≡ has_mark self.old name.now }
        ensures set { IsTrue (has_mark self.new name.now) }
        ensures kept { (other : List ℕ) → IsTrue (has_mark self.old other) → IsTrue (has_mark self.new other) }
    {
        let mark = mark_of(name);
        let was = has_bit(&self.words, mark);
        set_bit(&mut self.words, mark);
        was
    }
}
