// The sequent calculus: rules on sets of formulas, and what is true of them.
#![tactic(auto)]

mod theorems;

pub use theorems::rules_stand;
