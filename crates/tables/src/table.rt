// The table, as a list of shapes: a formula's number is its index.
ghost use Rattle.std.specs.Prelude.{◌≡◌, ◌%◌, ◌<◌, ◌≤◌, true, [], ◌∷◌, length, IfOk, vec_len, vec_capacity, MatchOption};
ghost use Rattle.pltl.specs.Formulas.{True, False};
ghost use Rattle.tables.specs.Entering.{added};
ghost use Rattle.tables.specs.Listing.{formulas, numbered, formula_over, parts_below, PartsFirst, Lawful};
ghost use Rattle.tables.specs.Steps.{Names, Grown, Reaches, Finds};

mod entering;
mod evaluation;

use super::number::Number;
pub use entering::Form;
use pltl::Shape;
use std::alloc::{AllocError, Global};

// How many numbers there are.
pub const NUMBERS: usize = 512;

// The formulas that have numbers. Its memory is asked for when it is made.
#[derive(Drop)]
pub struct Table {
    shapes: Vec<Shape<Number>>,
    ghost room: { 512 ≤ vec_capacity shapes },
    ghost few: { vec_len shapes ≤ 512 },
    ghost order: { PartsFirst shapes.items },
    ghost begun: { 2 ≤ vec_len shapes },
    ghost even: { vec_len shapes % 2 ≡ 0 },
    ghost lawful: { ∥ Lawful (formulas shapes.items) ∥₁ },
}

impl Table {
    // A table with true and false alone.
    pub fn new(heap: Global) -> Result<Table, AllocError>
        ensures { IfOk result (λ t. formulas t.shapes.items ≡ True ∷ False ∷ []) }
    {
        let mut shapes = Vec::with_capacity(heap, NUMBERS)?;
        shapes.push_reserved(Shape::True);
        shapes.push_reserved(Shape::False);
        Ok(Table { shapes })
    }

    // How many numbers are in use.
    pub fn len(&self) -> usize
        ensures value { result ≡ length (formulas self.now.shapes.items) }
        ensures few { result ≤ 512 }
    {
        self.shapes.len()
    }

    // The shape of a formula over the numbers of its parts, which are smaller; nothing for a number that is not in use.
    pub fn shape(&self, n: Number) -> Option<Shape<Number>>
        ensures { MatchOption result (length (formulas self.now.shapes.items) ≤ n.0) (λ s. (n.0 < length (formulas self.now.shapes.items)) × (formula_over (formulas self.now.shapes.items) s ≡ numbered (formulas self.now.shapes.items) n.0) × (parts_below n.0 s ≡ true)) }
    {
        self.shapes.get(n.0 as usize).copied()
    }

    // The number of a formula that is in the table, by its shape. The list is searched along: a map would ask for memory at
    // each new formula.
    pub(crate) fn find(&self, shape: Shape<Number>) -> Option<Number>
        requires { parts_below (length (formulas self.now.shapes.items)) shape ≡ true }
        ensures { Finds (formulas self.now.shapes.items) (formula_over (formulas self.now.shapes.items) shape) result }
    {
        let place = self.shapes.iter().position(|found| *found == shape)?;
        Some(Number(place as u16))
    }

    // The number of a formula by its shape; a new one is added, with its opposite, if there is room.
    pub(crate) fn add(&mut self, shape: Shape<Number>) -> Option<Number>
        requires { parts_below (length (formulas self.old.shapes.items)) shape ≡ true }
        ensures value { Reaches (added (formulas self.old.shapes.items) (formula_over (formulas self.old.shapes.items) shape)) (formulas self.new.shapes.items) (λ n. Names (formulas self.new.shapes.items) n (formula_over (formulas self.old.shapes.items) shape)) result }
        ensures grown { Grown self.old.shapes.items self.new.shapes.items }
    {
        if let Some(n) = self.find(shape) {
            return Some(n);
        }
        let new = self.shapes.len();
        if new >= NUMBERS {
            return None;
        }
        self.shapes.push_reserved(shape);
        self.shapes.push_reserved(shape.opposite());
        Some(Number(new as u16))
    }
}
