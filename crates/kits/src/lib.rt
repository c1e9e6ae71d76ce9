// Kits: sets of proof rules.
#![tactic(auto)]

mod faults;
mod kit;
mod pair;
mod steps;

pub use calculus::rules_stand;
pub use faults::KitFault;
pub use kit::Kit;
pub use pair::Pair;
pub use steps::Step;
