// Formulas of propositional linear temporal logic in negation normal form, by their outermost sign.
#![tactic(auto)]

ghost use Rattle.std.specs.Prelude.{◌≡◌, Bool};
ghost use Rattle.pltl.specs.Formulas.{Formula, opposite};
ghost use Rattle.pltl.specs.Shapes.{formula_of, all_parts, Each};

mod theorems;

pub use theorems::truth_stands;

// What names a formula and can name its opposite.
pub trait Dual {
    ghost dualized: { Self → Self };

    fn dual(self) -> Self
        ensures { result ≡ dualized self };
}

// A formula by its outermost sign; its parts are named by values of type `P`.
#[derive(Clone, Copy, PartialEq, Eq)]
pub enum Shape<P> {
    True,
    False,
    Letter(u8),
    NotLetter(u8),
    Next(P),
    Always(P),
    Eventually(P),
    Until(P, P),
    Release(P, P),
    And(P, P),
    Or(P, P),
}

impl<P: Dual> Shape<P> {
    // The opposite: each sign swapped with its dual, and the opposite of each part, in the same order.
    pub fn opposite(self) -> Shape<P>
        ensures value { (f : P → Formula) → Each (λ p. f (P.Dual.dualized p) ≡ opposite (f p)) self → formula_of f result ≡ opposite (formula_of f self) }
        ensures parts { (q : P → Bool) → all_parts q result ≡ all_parts (λ p. q (P.Dual.dualized p)) self }
    {
        match self {
            Shape::True => Shape::False,
            Shape::False => Shape::True,
            Shape::Letter(p) => Shape::NotLetter(p),
            Shape::NotLetter(p) => Shape::Letter(p),
            Shape::Next(a) => Shape::Next(a.dual()),
            Shape::Always(a) => Shape::Eventually(a.dual()),
            Shape::Eventually(a) => Shape::Always(a.dual()),
            Shape::Until(a, b) => Shape::Release(a.dual(), b.dual()),
            Shape::Release(a, b) => Shape::Until(a.dual(), b.dual()),
            Shape::And(a, b) => Shape::Or(a.dual(), b.dual()),
            Shape::Or(a, b) => Shape::And(a.dual(), b.dual()),
        }
    }
}
