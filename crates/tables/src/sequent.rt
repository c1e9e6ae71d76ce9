// Sequents: sets of formulas, by their numbers.
// Sets of numbers from 0 to 511, as words of 64 bits.
#[derive(Clone, Copy, Default)]
pub struct Sequent {
    words: [u64; 8],
}

mod iter;
mod members;

pub use iter::Members;
