// The numbers of the root formulas.
ghost use Rattle.std.specs.Prelude.{◌≡◌, ℕ, ◌+◌, ◌<◌, ◌≤◌, true, ◌&&◌, [], length, IfOk, if◌then◌else◌, None, vec_len, vec_capacity, nat_lt, slice_index};
ghost use Rattle.tables.specs.Sets.{member};
ghost use Rattle.tables.specs.Rows.{bit};
ghost use Rattle.cases.specs.Roots.{contains, noted, none_twice, plain, smaller, least_failing};

use std::alloc::{AllocError, Global};
use tables::{Number, Rows, Sequent};

// A root formula for each clause that may be taken, and one for a property that is wanting.
pub const MOST_ROOTS: usize = 41;

// Root formulas: those that a run must satisfy. Each number stands once, in the order of the clauses; a set of std's would
// ask for memory at each number.
#[derive(Drop)]
pub struct Roots {
    numbers: Vec<Number>,
    ghost room: { 41 ≤ vec_capacity numbers },
    ghost once: { none_twice (plain numbers.items) ≡ true },
}

impl Roots {
    pub fn new(heap: Global) -> Result<Roots, AllocError>
        ensures { IfOk result (λ s. s.numbers.items ≡ []) }
    {
        let numbers = Vec::with_capacity(heap, MOST_ROOTS)?;
        Ok(Roots { numbers })
    }

    pub fn len(&self) -> usize
        ensures { result ≡ length (plain self.now.numbers.items) }
    {
        self.numbers.len()
    }

    pub fn contains(&self, number: Number) -> bool
        ensures { result ≡ contains (plain self.now.numbers.items) number.0 }
    {
        self.numbers.iter().any(|known| known.0 == number.0)
    }

    // The numbers as a set.
    pub(crate) fn sequent(&self) -> Sequent
        ensures { (k : ℕ) → member result k ≡ (nat_lt k 512 && contains (plain self.now.numbers.items) k) }
    {
        let mut set = Sequent::empty();
        for number in self.numbers.iter() {
            set = set.with(*number);
        }
        set
    }

    // Adds a number, unless it is there.
    pub(crate) fn note(&mut self, number: Number)
        requires { vec_len self.old.numbers < 41 }
        ensures { plain self.new.numbers.items ≡ noted (plain self.old.numbers.items) number.0 }
    {
        if !self.contains(number) {
            self.numbers.push_reserved(number);
        }
    }

    // The smallest number whose row lacks position 0.
    pub(crate) fn least_false(&self, rows: &Rows) -> Option<usize>
        ensures { result ≡ least_failing (λ n. bit (slice_index rows.now.words n) 0) None (plain self.now.numbers.items) }
    {
        self.numbers
            .iter()
            .filter(|number| !rows.holds_first(**number))
            .map(|number| number.0 as usize)
            .min()
    }
}
