// Rows: where on a looping run each formula of a table is true.
ghost use Rattle.std.specs.Prelude.{◌≡◌, ◌<◌, length, set, replicate, slice_index, slice_set};
ghost use Rattle.pltl.specs.Formulas.{Formula};
ghost use Rattle.pltl.specs.Runs.{Run};
ghost use Rattle.pltl.specs.Shapes.{formula_of, Each};
ghost use Rattle.tables.specs.declared.number.Number.{Number as NumberOf};
ghost use Rattle.tables.specs.Rows.{bit, recorded, RowOf};

use super::number::Number;
use super::states::States;
use super::words::{both, complement, either, holds_at, next, positions, until};
use pltl::Shape;

// A row for each number: bit i is set where position i satisfies the formula.
#[derive(Clone, Copy)]
pub struct Rows {
    words: [u64; 512],
}

impl Rows {
    // Rows with no position.
    pub(crate) fn none() -> Rows
        ensures { result.words ≡ replicate 512 0 }
    {
        Rows { words: [0; 512] }
    }

    // The row of a number; no position from 512 on.
    pub fn row(&self, n: Number) -> u64
        ensures { result ≡ slice_index self.now.words n.0 }
    {
        self.words.get(n.0 as usize).copied().unwrap_or(0)
    }

    // Whether position 0 satisfies the formula of a number.
    pub fn holds_first(&self, n: Number) -> bool
        ensures { result ≡ bit (slice_index self.now.words n.0) 0 }
    {
        holds_at(self.row(n), 0)
    }

    // Sets the row of a number.
    pub(crate) fn set(&mut self, n: usize, row: u64)
        requires { n < 512 }
        ensures { self.new.words ≡ slice_set self.old.words n row }
    {
        self.words[n] = row;
    }

    // The row of a formula by its shape, from the rows of its parts.
    pub(crate) fn evaluate(&self, shape: Shape<Number>, states: &States, back: usize) -> u64
        requires { back < length (recorded states.now.letters states.now.len) }
        ensures { (r : Run) → r.states ≡ recorded states.now.letters states.now.len → r.back ≡ back → (f : NumberOf → Formula) → Each (λ n. RowOf r (f n) (slice_index self.now.words n.0)) shape → RowOf r (formula_of f shape) result }
    {
        let len = states.len();
        match shape {
            Shape::True => positions(len),
            Shape::False => 0,
            Shape::Letter(p) => states.letter(p),
            Shape::NotLetter(p) => complement(states.letter(p), len),
            Shape::Next(a) => next(self.row(a), len, back),
            Shape::Always(a) => {
                let missing = complement(self.row(a), len);
                complement(until(positions(len), missing, len, back), len)
            }
            Shape::Eventually(a) => until(positions(len), self.row(a), len, back),
            Shape::Until(a, b) => until(self.row(a), self.row(b), len, back),
            Shape::Release(a, b) => {
                let not_a = complement(self.row(a), len);
                let not_b = complement(self.row(b), len);
                complement(until(not_a, not_b, len, back), len)
            }
            Shape::And(a, b) => both(self.row(a), self.row(b)),
            Shape::Or(a, b) => either(self.row(a), self.row(b)),
        }
    }
}
