// Formula texts: which sign a byte is, the five levels of the grammar, and the normal form of what was read.
#![tactic(auto)]

mod faults;
mod levels;
mod nodes;
mod normal;
mod theorems;

pub use faults::{Layer, Refusal, TextFault};
pub use nodes::{Node, Syntax};
pub use normal::Part;
pub use theorems::grammar_stands;

// The signs of a formula text. `->` is a minus and a greater.
#[derive(Clone, Copy)]
pub enum Sign {
    Not,
    Next,
    Always,
    Eventually,
    Until,
    Release,
    And,
    Or,
    Minus,
    Greater,
    Open,
    Close,
    One,
    Zero,
    Letter(u8),
    Other,
}
