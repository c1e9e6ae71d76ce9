// Drafts, which take clauses, and cases, which take evidence.
#![tactic(auto)]

mod call;
mod draft;
mod faults;
mod kind;
mod recorder;
mod roots;
mod verdict;

pub use call::{Call, Entry, StepCall};
pub use draft::{Case, Draft, record, verdicts};
pub use faults::{CallFault, CaseFault};
pub use kind::ClauseKind;
pub use recorder::Event;
pub use verdict::Verdict;
