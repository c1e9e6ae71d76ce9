// Calls on a case.
use super::faults::CallFault;

// A step that is handed in: a rule, a principal number, the conclusion by the numbers of its formulas, rising, and the
// premises by the numbers of the steps whose conclusions they are, counted from 1.
#[derive(Clone, Copy)]
pub struct StepCall<'n> {
    pub rule: u16,
    pub principal: u16,
    pub conclusion: &'n [u16],
    pub premises: &'n [u16],
}

// A call on a case, with the text or the numbers that are handed in; its step is handed in as an `S`.
#[derive(Clone, Copy)]
pub enum Call<'t, S> {
    // Numbers the formula of a text.
    Form(&'t [u8]),
    Step(S),
    // A state with the letters whose bits 0 to 25 are set.
    State(u32),
    // The back position that closes the run.
    Loop(usize),
    Drop,
    Verdict,
}

// An entry of a record: a call, and what it is answered: a number, as a sheet prints it.
#[derive(Clone, Copy)]
pub struct Entry<'t, 'n> {
    pub call: Call<'t, StepCall<'n>>,
    pub answer: Result<usize, CallFault>,
}
