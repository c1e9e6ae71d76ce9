// The table of formulas, each with one number; recorded states, and rows.
#![tactic(auto)]

mod number;
mod rows;
mod sequent;
mod states;
mod table;
mod words;

pub use number::Number;
pub use rows::Rows;
pub use sequent::{Members, Sequent};
pub use states::{MOST_POSITIONS, States};
pub use table::{Form, Table};
