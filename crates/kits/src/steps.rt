// Steps.
use tables::Sequent;

// A step by a rule: the conclusion, and the number of its principal formula. The premises come beside it. The rule is a
// number, since each kit has rules of its own.
#[derive(Clone, Copy)]
pub struct Step {
    pub rule: u16,
    pub principal: u16,
    pub conclusion: Sequent,
}
