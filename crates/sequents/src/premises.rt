// Whether premises have only what a rule lets them have. A number that names no formula does not count.
ghost use Rattle.std.specs.Prelude.{◌≡◌, ℕ, ◌<◌, true, ◌⊎◌, map, length, Decides};
ghost use Rattle.pltl.specs.Formulas.{Formula, Next, Until, And, Or, opposite};
ghost use Rattle.calculus.specs.Sequents.{◌∈◌};
ghost use Rattle.calculus.specs.Rules.{Alternative, Covers, IsAlways, Rule};
ghost use Rattle.tables.specs.Listing.{numbered};
ghost use Rattle.tables.specs.Sets.{member};
ghost use Rattle.sequents.specs.Rooms.{Inside, Side, Added, FitsRoom, FitsPlan, more_inside, plan_inside};
ghost use Rattle.kits.specs.Steps.{listed, formulas_in};

use super::rooms::{More, Plan, Room};
use pltl::{Dual, Shape};
use tables::{Number, Sequent, Table};

// The table, and D: the conclusion without its principal formula, which the sequent calculus calls the context of that
// formula. A step by next has no principal formula, and there D is the whole conclusion.
#[derive(Clone, Copy)]
pub(crate) struct Context<'a> {
    pub(crate) table: &'a Table,
    pub(crate) d: &'a Sequent,
}

impl Context<'_> {
    // Whether there are as many premises as a plan has, and each fits.
    pub(crate) fn fit(self, plan: Plan, premises: &[Sequent]) -> bool
        requires { plan_inside (listed self.table.now) plan ≡ true }
        ensures { Decides result (FitsPlan (listed self.entry.table.now) self.entry.d.now plan (map (formulas_in (listed self.entry.table.now)) premises.now)) }
    {
        match (plan, premises) {
            (Plan::Closed, []) => true,
            (Plan::One(room), [premise]) => self.fits(room, premise),
            (Plan::Two(left, right), [first, second]) => {
                self.fits(left, first) && self.fits(right, second)
            }
            _ => false,
        }
    }

    // Whether a premise has only what a room has.
    fn fits(self, room: Room, premise: &Sequent) -> bool
        requires { more_inside (listed self.table.now) room.more ≡ true }
        ensures { Decides result (FitsRoom (listed self.entry.table.now) self.entry.d.now room (formulas_in (listed self.entry.table.now) premise.now)) }
    {
        let beside = premise.minus(&room.set);
        beside.iter().all(|k| self.is_added(room.more, k))
    }

    // Whether the formula of a number is one that a rule adds.
    fn is_added(self, more: More, k: Number) -> bool
        requires { more_inside (listed self.table.now) more ≡ true }
        ensures { Decides result (k.0 < length (listed self.entry.table.now) → Added (listed self.entry.table.now) self.entry.d.now more (numbered (listed self.entry.table.now) k.0)) }
    {
        let Some(shape) = self.table.shape(k) else {
            return true;
        };
        let Shape::Next(next) = shape else {
            return false;
        };
        match more {
            More::Nothing => false,
            More::NextOf(m) => next == m,
            More::SomeAgain(a) => self.is_some_again(next, a),
            More::UntilAgain(a, b) => self.is_until_again(next, a, b),
        }
    }

    // Whether a formula is N U A, and N covers D.
    fn is_some_again(self, k: Number, a: Number) -> bool
        requires { (k.0 < length (listed self.table.now)) × (a.0 < length (listed self.table.now)) }
        ensures { Decides result ((n : Formula) × (numbered (listed self.entry.table.now) k.0 ≡ Until n (numbered (listed self.entry.table.now) a.0)) × Covers n (Inside (listed self.entry.table.now) self.entry.d.now)) }
    {
        match self.table.shape(k) {
            Some(Shape::Until(n, goal)) => goal == a && self.covers(n),
            _ => false,
        }
    }

    // Whether a formula is (A & N) U B, and N covers D.
    fn is_until_again(self, k: Number, a: Number, b: Number) -> bool
        requires { (k.0 < length (listed self.table.now)) × ((a.0 < length (listed self.table.now)) × (b.0 < length (listed self.table.now))) }
        ensures { Decides result ((n : Formula) × (numbered (listed self.entry.table.now) k.0 ≡ Until (And (numbered (listed self.entry.table.now) a.0) n) (numbered (listed self.entry.table.now) b.0)) × Covers n (Inside (listed self.entry.table.now) self.entry.d.now)) }
    {
        match self.table.shape(k) {
            Some(Shape::Until(both, goal)) => goal == b && self.is_and_covering(both, a),
            _ => false,
        }
    }

    // Whether a formula is A & N, and N covers D.
    fn is_and_covering(self, k: Number, a: Number) -> bool
        requires { (k.0 < length (listed self.table.now)) × (a.0 < length (listed self.table.now)) }
        ensures { Decides result ((n : Formula) × (numbered (listed self.entry.table.now) k.0 ≡ And (numbered (listed self.entry.table.now) a.0) n) × Covers n (Inside (listed self.entry.table.now) self.entry.d.now)) }
    {
        match self.table.shape(k) {
            Some(Shape::And(left, n)) => left == a && self.covers(n),
            _ => false,
        }
    }

    // Whether a formula has among its alternatives the opposite of every formula of D that is not an always-formula.
    fn covers(self, n: Number) -> bool
        requires { n.0 < length (listed self.table.now) }
        ensures { Decides result (Covers (numbered (listed self.entry.table.now) n.0) (Inside (listed self.entry.table.now) self.entry.d.now)) }
    {
        let alternatives = alternatives(self.table, n);
        self.d
            .iter()
            .all(|k| is_covered(self.table, &alternatives, k))
    }
}

// Whether there is one premise, and X of each of its formulas is in the conclusion.
#[tactic(auto, using(crate::specs::AllowedSteps::next_long))]
pub(crate) fn come_next(table: &Table, conclusion: &Sequent, premises: &[Sequent]) -> bool
    ensures { (m : Formula) → Decides result (Rule (formulas_in (listed table.now) conclusion.now) m 11 (map (formulas_in (listed table.now)) premises.now)) }
{
    let context = Context {
        table,
        d: conclusion,
    };
    match premises {
        [premise] => context.fits(Room::of(nexts(table, conclusion)), premise),
        _ => false,
    }
}

// The formulas whose X is in a conclusion.
fn nexts(table: &Table, conclusion: &Sequent) -> Sequent
    ensures { (k : ℕ) → k < length (listed table.now) → Decides (member result k) (Next (numbered (listed table.now) k) ∈ formulas_in (listed table.now) conclusion.now) }
{
    let mut found = Sequent::empty();
    for k in conclusion.iter() {
        found = with_next(table, k, found);
    }
    found
}

// A set, with A if a number names X A.
fn with_next(table: &Table, k: Number, found: Sequent) -> Sequent
    ensures { (g : Formula) → (g ∈ formulas_in (listed table.now) result → (g ∈ formulas_in (listed table.now) found) ⊎ ((k.0 < length (listed table.now)) × (numbered (listed table.now) k.0 ≡ Next g))) × ((g ∈ formulas_in (listed table.now) found) ⊎ ((k.0 < length (listed table.now)) × (numbered (listed table.now) k.0 ≡ Next g)) → g ∈ formulas_in (listed table.now) result) }
{
    match table.shape(k) {
        Some(Shape::Next(a)) => found.with(a),
        _ => found,
    }
}

// Whether a formula is an always-formula or its opposite is in a set.
fn is_covered(table: &Table, alternatives: &Sequent, k: Number) -> bool
    ensures { Decides result (k.0 < length (listed table.now) → (IsAlways (numbered (listed table.now) k.0) → ⊥) → opposite (numbered (listed table.now) k.0) ∈ formulas_in (listed table.now) alternatives.now) }
{
    let Some(shape) = table.shape(k) else {
        return true;
    };
    match shape {
        Shape::Always(_) => true,
        _ => alternatives.contains(k.dual()),
    }
}

// A formula and, if it is a disjunction, the alternatives of both sides. Sides have smaller numbers, so one pass down does.
// The set grows meanwhile, so no iterator of it goes along.
fn alternatives(table: &Table, n: Number) -> Sequent
    requires { n.0 < length (listed table.now) }
    ensures { (k : ℕ) → k < length (listed table.now) → Decides (member result k) (Alternative (numbered (listed table.now) k) (numbered (listed table.now) n.0)) }
{
    let mut found = Sequent::empty().with(n);
    let mut at = n.0 as usize + 1;
    while let Some(k) = found.last_below(at) {
        found = with_sides(table, k, found);
        at = k.0 as usize;
    }
    found
}

// A set, with both sides if a number names a disjunction.
fn with_sides(table: &Table, k: Number, found: Sequent) -> Sequent
    ensures kept { (g : Formula) → g ∈ formulas_in (listed table.now) found → g ∈ formulas_in (listed table.now) result }
    ensures sides { (a b : Formula) → k.0 < length (listed table.now) → numbered (listed table.now) k.0 ≡ Or a b → (a ∈ formulas_in (listed table.now) result) × (b ∈ formulas_in (listed table.now) result) }
    ensures others { (j : ℕ) → j < length (listed table.now) → member result j ≡ true → (member found j ≡ true) ⊎ ((j < k.0) × Side (numbered (listed table.now) j) (numbered (listed table.now) k.0)) }
{
    match table.shape(k) {
        Some(Shape::Or(a, b)) => found.with(a).with(b),
        _ => found,
    }
}
