// Drafts and cases.
ghost use Rattle.std.specs.Prelude.{◌≡◌, ◌≤◌, true, [], map, length, vec_len, vec_capacity};
ghost use Rattle.tables.specs.Listing.{formulas};
ghost use Rattle.tables.specs.Sets.{member};
ghost use Rattle.cases.specs.Good.{Good};
ghost use Rattle.cases.specs.Recordings.{run_model};
ghost use Rattle.cases.specs.Roots.{all_below, plain};

mod calls;
mod recording;
mod runs;
mod steps;

use super::recorder::Recorder;
use super::roots::Roots;
pub use recording::record;
pub use steps::verdicts;
use tables::{Sequent, Table};
use texts::Syntax;

// How many clauses a draft takes.
pub const MOST_CLAUSES: usize = 40;

// How many steps a case takes.
pub const MOST_STEPS: usize = 400;

// A draft takes the clauses of a case: how a run starts, what stays true, how one moment leads to the next,
// and at most one property. Sealing turns it into a case.
#[derive(Drop)]
pub struct Draft<K> {
    kit: K,
    table: Table,
    syntax: Syntax,
    roots: Roots,
    steps: Vec<Sequent>,
    clauses: usize,
    property: bool,
    ghost room: { 400 ≤ vec_capacity steps },
    ghost none: { steps.items ≡ [] },
    ghost few: { clauses ≤ 40 },
    ghost rooted: { vec_len roots.numbers ≤ clauses },
    ghost inside: { all_below (length (formulas table.shapes.items)) (plain roots.numbers.items) ≡ true },
}

// A case: a draft that is sealed. It takes evidence for or against the property. What both hold stands in both: a struct
// of it would repeat the clauses of each part's methods.
#[derive(Drop)]
pub struct Case<K> {
    kit: K,
    table: Table,
    syntax: Syntax,
    roots: Roots,
    steps: Vec<Sequent>,
    run: Recorder,
    ghost room: { 400 ≤ vec_capacity steps },
    ghost few: { vec_len steps ≤ 400 },
    ghost inside: { all_below (length (formulas table.shapes.items)) (plain roots.numbers.items) ≡ true },
    ghost good: { ∥ Good (record { case = record { formulas = formulas table.shapes.items; roots = plain roots.numbers.items; run = run_model run }; steps = map member steps.items }) ∥₁ },
}
