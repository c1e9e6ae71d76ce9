// The closure of a set of formulas.
ghost use Rattle.std.specs.Prelude.{◌≡◌, ℕ, ◌<◌, true, ◌&&◌, ◌||◌, List, length, Decides, ◌==◌, nat_lt};
ghost use Rattle.pltl.specs.Formulas.{Formula, opposite};
ghost use Rattle.calculus.specs.Sequents.{◌∈◌};
ghost use Rattle.calculus.specs.Units.{Closure, Contradicts};
ghost use Rattle.tables.specs.Listing.{numbered};
ghost use Rattle.tables.specs.Numbers.{beside};
ghost use Rattle.tables.specs.Sets.{member};
ghost use Rattle.units.specs.Closures.{Within, Brought};
ghost use Rattle.kits.specs.Steps.{listed, formulas_in};

use pltl::{Dual, Shape};
use tables::{Number, Sequent, Table};

// The number of false.
const FALSE: Number = Number(1);

// Whether the closure of a set contains false or two opposites.
pub(crate) fn is_contradictory(table: &Table, set: &Sequent) -> bool
    ensures { Decides result (Contradicts (formulas_in (listed table.now) set.now)) }
{
    let closed = closure(table, *set);
    closed.contains(FALSE) || has_opposites(table, &closed)
}

// Whether two opposites are in a set.
fn has_opposites(table: &Table, set: &Sequent) -> bool
    ensures { Decides result ((k : ℕ) × (k < length (listed table.now)) × (numbered (listed table.now) k ∈ formulas_in (listed table.now) set.now) × (opposite (numbered (listed table.now) k) ∈ formulas_in (listed table.now) set.now)) }
{
    set.iter()
        .any(|k| (k.0 as usize) < table.len() && set.contains(k.dual()))
}

// The closure: rounds until one brings nothing. Each round but the last adds a number, so there are at most as many
// rounds as numbers, and one more.
fn closure(table: &Table, set: Sequent) -> Sequent
    ensures { (g : Formula) → (g ∈ formulas_in (listed table.now) result → Closure (formulas_in (listed table.now) set) g) × (Closure (formulas_in (listed table.now) set) g → g ∈ formulas_in (listed table.now) result) }
{
    let mut closed = set;
    loop {
        let grown = round(table, closed);
        if grown.is_within(&closed) {
            return closed;
        }
        closed = grown;
    }
}

// A set with what its formulas bring.
fn round(table: &Table, set: Sequent) -> Sequent
    ensures kept { (k : ℕ) → member set k ≡ true → member result k ≡ true }
    ensures sound { (Γ : List Formula) → Within Γ (formulas_in (listed table.now) set) → Within Γ (formulas_in (listed table.now) result) }
    ensures brought { (k : ℕ) → k < length (listed table.now) → member set k ≡ true → Brought (formulas_in (listed table.now) set) (formulas_in (listed table.now) result) (numbered (listed table.now) k) }
{
    let mut grown = set;
    for k in set.iter() {
        grown = with_brought(table, k, grown);
    }
    grown
}

// A set with what the formula of a number brings, where it is in the set.
fn with_brought(table: &Table, k: Number, set: Sequent) -> Sequent
    requires { member set k.0 ≡ true }
    ensures kept { (j : ℕ) → member set j ≡ true → member result j ≡ true }
    ensures sound { (Γ : List Formula) → Within Γ (formulas_in (listed table.now) set) → Within Γ (formulas_in (listed table.now) result) }
    ensures brought { k.0 < length (listed table.now) → Brought (formulas_in (listed table.now) set) (formulas_in (listed table.now) result) (numbered (listed table.now) k.0) }
{
    match table.shape(k) {
        Some(Shape::And(a, b)) => set.with(a).with(b),
        Some(Shape::Always(a)) => set.with(a),
        Some(Shape::Or(a, b)) => with_side(with_side(set, a, b), b, a),
        _ => set,
    }
}

// A set with one side of a disjunction, if the opposite of the other is in it.
fn with_side(set: Sequent, side: Number, other: Number) -> Sequent
    ensures { (j : ℕ) → member result j ≡ (member set j || (member set (beside other.0) && (nat_lt j 512 && j == side.0))) }
{
    if set.contains(other.dual()) {
        set.with(side)
    } else {
        set
    }
}
