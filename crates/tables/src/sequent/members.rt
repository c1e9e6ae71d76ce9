// What is in a sequent.
ghost use Rattle.std.specs.Prelude.{◌≡◌, ℕ, ◌+◌, ◌*◌, ◌<◌, ◌≤◌, true, false, not, ◌&&◌, ◌||◌, Decides, MatchOption, ◌==◌, nat_lt};
ghost use Rattle.tables.specs.Rows.{bit};
ghost use Rattle.tables.specs.Sets.{member};

use super::super::number::Number;
use super::super::table::NUMBERS;
use super::super::words::{both, complement, either, first_in, holds_at, last_in, only, positions};
use super::Sequent;
use std::array::from_fn;

// How many numbers each word has.
const WORD: usize = 64;

// The positions in word `i` of the numbers below `len`.
fn word_below(i: usize, len: usize) -> u64
    requires { i < 8 }
    ensures { (j : ℕ) → j < 64 → bit result j ≡ nat_lt (i * 64 + j) len }
{
    positions(len.saturating_sub(i * WORD).min(WORD))
}

impl Sequent {
    // The set with nothing in it.
    pub fn empty() -> Sequent
        ensures { (k : ℕ) → member result k ≡ false }
    {
        Sequent { words: [0; 8] }
    }

    // Whether a number is in the set, for every number.
    pub fn contains(&self, n: Number) -> bool
        ensures { result ≡ member self.now n.0 }
    {
        let n = n.0 as usize;
        n < NUMBERS && holds_at(self.words[n / WORD], n % WORD)
    }

    // The set with a number more; 512 and what is above it are in no set.
    pub fn with(self, n: Number) -> Sequent
        ensures { (k : ℕ) → member result k ≡ (member self k || (nat_lt k 512 && k == n.0)) }
    {
        let n = n.0 as usize;
        let mut words = self.words;
        if n < NUMBERS {
            words[n / WORD] = either(words[n / WORD], only(n % WORD));
        }
        Sequent { words }
    }

    // The set without a number.
    pub fn without(self, n: Number) -> Sequent
        ensures { (k : ℕ) → member result k ≡ (member self k && not (k == n.0)) }
    {
        self.minus(&Sequent::empty().with(n))
    }

    // What is in this set and not in the other.
    pub fn minus(&self, other: &Sequent) -> Sequent
        ensures { (k : ℕ) → member result k ≡ (member self.now k && not (member other.now k)) }
    {
        Sequent {
            words: from_fn(|i| both(self.words[i], complement(other.words[i], WORD))),
        }
    }

    // The numbers of the set that are below `len`.
    pub fn below(&self, len: usize) -> Sequent
        ensures { (k : ℕ) → member result k ≡ (member self.now k && nat_lt k len) }
    {
        Sequent {
            words: from_fn(|i| both(self.words[i], word_below(i, len))),
        }
    }

    // Whether all numbers of the set are in the other.
    pub fn is_within(&self, other: &Sequent) -> bool
        ensures { Decides result ((k : ℕ) → member self.now k ≡ true → member other.now k ≡ true) }
    {
        self.minus(other).first().is_none()
    }

    // The smallest number of the set.
    pub(super) fn first(&self) -> Option<Number>
        ensures { MatchOption result ((k : ℕ) → member self.now k ≡ false) (λ n. (n.0 < 512) × (member self.now n.0 ≡ true) × ((k : ℕ) → k < n.0 → member self.now k ≡ false)) }
    {
        for (i, word) in self.words.iter().enumerate() {
            if let Some(at) = first_in(*word) {
                return Some(Number((i * WORD + at) as u16));
            }
        }
        None
    }

    // The largest number of the set.
    fn last(&self) -> Option<Number>
        ensures { MatchOption result ((k : ℕ) → member self.now k ≡ false) (λ n. (n.0 < 512) × (member self.now n.0 ≡ true) × ((k : ℕ) → n.0 < k → member self.now k ≡ false)) }
    {
        for (i, word) in self.words.iter().enumerate().rev() {
            if let Some(at) = last_in(*word) {
                return Some(Number((i * WORD + at) as u16));
            }
        }
        None
    }

    // The smallest number of the set from `from` on.
    pub fn first_from(&self, from: usize) -> Option<Number>
        ensures { MatchOption result ((k : ℕ) → from ≤ k → member self.now k ≡ false) (λ n. (from ≤ n.0) × (n.0 < 512) × (member self.now n.0 ≡ true) × ((k : ℕ) → from ≤ k → k < n.0 → member self.now k ≡ false)) }
    {
        self.minus(&self.below(from)).first()
    }

    // The largest number of the set below `below`.
    pub fn last_below(&self, below: usize) -> Option<Number>
        ensures { MatchOption result ((k : ℕ) → k < below → member self.now k ≡ false) (λ n. (n.0 < below) × (n.0 < 512) × (member self.now n.0 ≡ true) × ((k : ℕ) → n.0 < k → k < below → member self.now k ≡ false)) }
    {
        self.below(below).last()
    }
}
