//! Which workers are marked.
ghost use Rattle.std.specs.Prelude.{◌≡◌, ◌≢◌, ◌==◌, ◌↔◌, ◌≤◌, ◌<◌, ◌/◌, ◌%◌, ◌^◌, ℕ, All, MatchOption, slice_index, cond, true, false};
ghost use Rattle.std.specs.Int.{bit_at};
ghost use Rattle.std.specs.FinSet as set;
ghost use Rattle.server_core.specs.Numbers.{with_mark, any_word, IsFirstBit, IsFirstFrom, HasNoneFrom};

use std::marker::Model;

/// How many workers there can be, as `actix-server`'s `MAX_WORKERS`.
pub const MAX_WORKERS: usize = 512;

// Whether the bit at `place` is set.
fn has_bit(word: u128, place: usize) -> bool
    requires { place < 128 }
    ensures { result ≡ (bit_at word place == 1) }
{
    word >> place & 1 == 1
}

// The word with the bit at `place` set.
fn with_bit(word: u128, place: usize) -> u128
    requires { place < 128 }
    ensures there { bit_at result place ≡ 1 }
    ensures others { (i : ℕ) → i < 128 → i ≢ place → bit_at result i ≡ bit_at word i }
{
    word | 1 << place
}

// The word with the bit at `place` cleared.
fn without_bit(word: u128, place: usize) -> u128
    requires { place < 128 }
    ensures there { bit_at result place ≡ 0 }
    ensures others { (i : ℕ) → i < 128 → i ≢ place → bit_at result i ≡ bit_at word i }
{
    word & !(1 << place)
}

// The word with the bit at `place` as told.
fn with_mark(word: u128, place: usize, mark: bool) -> u128
    requires { place < 128 }
    ensures there { bit_at result place ≡ cond mark 1 0 }
    ensures others { (i : ℕ) → i < 128 → i ≢ place → bit_at result i ≡ bit_at word i }
{
    if mark {
        with_bit(word, place)
    } else {
        without_bit(word, place)
    }
}

// The lowest bit that is set, from `place` on.
fn first_bit(word: u128, place: usize) -> Option<usize>
    requires { place < 128 }
    ensures { MatchOption result ((i : ℕ) → place ≤ i → i < 128 → bit_at word i ≡ 0) (IsFirstBit word place) }
{
    let rest = word >> place;
    if rest == 0 {
        return None;
    }
    Some(place + rest.trailing_zeros() as usize)
}

// Whether a word has a bit that is set.
fn any_word(words: &[u128]) -> bool
    ensures value { result ≡ any_word words.now }
    ensures fits { (k : ℕ) → slice_index words.now k < 2 ^ 128 }
{
    words.iter().any(|word| *word != 0)
}

/// A set of workers by their numbers, which lie below `MAX_WORKERS`, as `actix-server`'s `Availability`.
///
/// Contracts see it as the set of the numbers that are marked.
#[derive(Drop)]
pub struct Availability {
    words: [u128; 4],
}

impl Model for Availability {
    ghost use Rattle.std.specs.Coded.{coded_ℕ};
    ghost use Rattle.std.specs.FinSet as set;
    ghost use Rattle.server_core.specs.Numbers.{Numbers, numbers_below};

    ghost Value = { Numbers };

    ghost coded = { set.code coded_ℕ };

    ghost view = { λ a. set.from_list (numbers_below 512 a.words) };
}

impl Default for Availability {
    /// No worker.
    fn default() -> Self
        ensures { result ≡ set.empty }
    {
        Availability { words: [0; 4] }
    }
}

impl Availability {
    /// Whether a worker is marked, as `actix-server`'s `Availability::available`.
    pub fn available(&self) -> bool
        ensures { (result ≡ false) ↔ (self.now ≡ set.empty) }
    {
        any_word(&self.words)
    }

    /// Whether the worker `idx` is marked, as `actix-server`'s `Availability::get_available`. No worker from `MAX_WORKERS` on
    /// is.
    pub fn get_available(&self, idx: usize) -> bool
        requires { idx < 512 }
        ensures value { result ≡ set.contains self.now idx }
        ensures below { (w : ℕ) → set.contains self.now w ≡ true → w < 512 }
    {
        let (group, place) = Self::offset(idx);
        has_bit(self.words[group], place)
    }

    /// Marks the worker `idx`, or takes its mark, as `actix-server`'s `Availability::set_available`.
    pub fn set_available(&mut self, idx: usize, avail: bool)
        requires { idx < 512 }
        ensures { self.new ≡ with_mark self.old idx avail }
    {
        let (group, place) = Self::offset(idx);
        self.words[group] = with_mark(self.words[group], place, avail);
    }

    /// Marks each of `workers`, as `actix-server`'s `Availability::set_available_all`.
    pub fn set_available_all(&mut self, workers: &[usize])
        requires { All (λ w. w < 512) workers.now }
        ensures { self.new ≡ set.union self.old (set.from_list workers.now) }
    {
        for worker in workers {
            self.set_available(*worker, true);
        }
    }

    /// The group of 128 in which a worker lies, and its place there, as `actix-server`'s `Availability::offset`.
    pub fn offset(idx: usize) -> (usize, usize)
        requires { idx < 512 }
        ensures quotient { result.0 ≡ idx / 128 }
        ensures remainder { result.1 ≡ idx % 128 }
    {
        (idx / 128, idx % 128)
    }

    // Whether the worker `idx` is marked, which none is from `MAX_WORKERS` on.
    pub(crate) fn holds(&self, idx: usize) -> bool
        ensures { result ≡ set.contains self.now idx }
    {
        match self.words.get(idx / 128) {
            Some(word) => has_bit(*word, idx % 128),
            None => false,
        }
    }

    // The lowest worker that is marked, from `from` on.
    pub(crate) fn first_from(&self, from: usize) -> Option<usize>
        ensures { MatchOption result (HasNoneFrom self.now from) (IsFirstFrom self.now from) }
    {
        for group in from / 128..4 {
            let start = from.max(128 * group);
            if let Some(place) = first_bit(self.words[group], start % 128) {
                return Some(128 * group + place);
            }
        }
        None
    }
}
