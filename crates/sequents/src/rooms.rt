// Conclusions, and what the premises of a rule may have.
mod making;

use pltl::Shape;
use tables::{Number, Sequent};

// A conclusion, as its principal formula m, by number and shape, and D, the conclusion without it.
#[derive(Clone, Copy)]
pub struct Conclusion {
    pub m: Number,
    pub shape: Shape<Number>,
    pub d: Sequent,
}

// What a premise may have beside single formulas.
#[derive(Clone, Copy)]
pub enum More {
    Nothing,
    // X m.
    NextOf(Number),
    // Any X(N U A), where N has the opposite of the context among its alternatives.
    SomeAgain(Number),
    // Any X((A & N) U B), with N as before.
    UntilAgain(Number, Number),
}

// What one premise may have: the formulas of a set, and more.
#[derive(Clone, Copy)]
pub struct Room {
    pub set: Sequent,
    pub more: More,
}

// What the premises may have, and how many there are.
#[derive(Clone, Copy)]
pub enum Plan {
    Closed,
    One(Room),
    Two(Room, Room),
}
