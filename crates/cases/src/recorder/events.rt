// What the recorder does.
ghost use Rattle.std.specs.Prelude.{◌≡◌, length, if◌then◌else◌, Some, None, nat_lt};
ghost use Rattle.cases.specs.Drafts.{no_run};
ghost use Rattle.cases.specs.declared.faults.CaseFault.TheVariants.{NoPosition};
ghost use Rattle.cases.specs.declared.recorder.Event.TheVariants.{State, Loop};
ghost use Rattle.cases.specs.Phases.{back_of};
ghost use Rattle.cases.specs.Recordings.{run_model, is_closed, stray, letters_objection, event_objection, event_answer, after_event, answer_unless, kept_unless};

use super::super::faults::CaseFault;
use super::{Event, Phase, Recorder};
use tables::States;

impl Recorder {
    // No states.
    pub fn new() -> Recorder
        ensures { run_model result ≡ no_run }
    {
        Recorder {
            states: States::new(),
            phase: Phase::Empty,
        }
    }

    pub fn states(&self) -> &States
        ensures { result.now ≡ self.now.states }
    {
        &self.states
    }

    pub fn is_closed(&self) -> bool
        ensures { result ≡ is_closed (run_model self.now).back }
    {
        matches!(self.phase, Phase::Closed(_))
    }

    // Takes a state, a loop or a drop, by the phase that the run is in.
    pub fn record(&mut self, event: Event) -> Result<usize, CaseFault>
        ensures value { result ≡ answer_unless (event_objection (run_model self.old) event) (event_answer (run_model self.old) event) }
        ensures after { run_model self.new ≡ kept_unless (event_objection (run_model self.old) event) (after_event (run_model self.old) event) (run_model self.old) }
    {
        match (self.phase, event) {
            (Phase::Closed(_), Event::State(_)) => Err(CaseFault::ClosedRun),
            (Phase::Closed(_), Event::Loop(_)) => Err(CaseFault::ClosedRun),
            (Phase::Empty, Event::Loop(_)) => Err(CaseFault::NoPosition),
            (Phase::Empty, Event::State(letters)) => self.take_state(letters),
            (Phase::Open, Event::State(letters)) => self.take_state(letters),
            (Phase::Open, Event::Loop(back)) => self.close(back),
            (_, Event::Drop) => {
                *self = Recorder::new();
                Ok(0)
            }
        }
    }

    // One state more of a run that is not closed.
    fn take_state(&mut self, letters: u32) -> Result<usize, CaseFault>
        requires { back_of self.old.phase ≡ None }
        ensures value { result ≡ answer_unless (letters_objection (stray letters) (length (run_model self.old).states)) (length (run_model self.old).states) }
        ensures after { run_model self.new ≡ kept_unless (letters_objection (stray letters) (length (run_model self.old).states)) (after_event (run_model self.old) (State letters)) (run_model self.old) }
    {
        if let Some(bit) = stray_letter(letters) {
            return Err(CaseFault::StrayLetter(bit));
        }
        let Some(position) = self.states.push(letters) else {
            return Err(CaseFault::TooManyPositions);
        };
        self.phase = Phase::Open;
        Ok(position)
    }

    // Closes an open run.
    fn close(&mut self, back: usize) -> Result<usize, CaseFault>
        requires { back_of self.old.phase ≡ None }
        ensures value { result ≡ answer_unless (if nat_lt back (length (run_model self.old).states) then None else Some NoPosition) (length (run_model self.old).states) }
        ensures after { run_model self.new ≡ kept_unless (if nat_lt back (length (run_model self.old).states) then None else Some NoPosition) (after_event (run_model self.old) (Loop back)) (run_model self.old) }
    {
        let len = self.states.len();
        if back >= len {
            return Err(CaseFault::NoPosition);
        }
        self.phase = Phase::Closed(back);
        Ok(len)
    }
}

// The lowest bit past the last letter's, if one is set.
fn stray_letter(letters: u32) -> Option<usize>
    ensures { result ≡ stray letters }
{
    let past = letters >> 26;
    if past == 0 {
        return None;
    }
    Some(26 + past.trailing_zeros() as usize)
}
