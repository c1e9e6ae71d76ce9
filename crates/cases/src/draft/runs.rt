// The calls on a case's recorded run.
ghost use Rattle.std.specs.Prelude.{◌≡◌, ◌<◌, length};
ghost use Rattle.pltl.specs.Runs.{Run};
ghost use Rattle.cases.specs.declared.recorder.Event.TheVariants.{State, Loop, Drop as Dropped};
ghost use Rattle.cases.specs.Loops.{false_root, loop_objection, with_run, LoopMeans, RowMeans};
ghost use Rattle.cases.specs.Recordings.{event_objection, after_event, answer_unless, kept_unless};
ghost use Rattle.cases.specs.Views.{case_model, stepped_model};

use super::super::faults::CaseFault;
use super::super::recorder::Event;
use super::Case;
use kits::Kit;
use tables::Number;

impl<K: Kit + Drop> Case<K> {
    // Takes a state with the letters whose bits 0 to 25 are set: its position.
    pub fn state(&mut self, letters: u32) -> Result<usize, CaseFault>
        ensures value { result ≡ answer_unless (event_objection (case_model self.old).run (State letters)) (length (case_model self.old).run.states) }
        ensures after { case_model self.new ≡ with_run (case_model self.old) (kept_unless (event_objection (case_model self.old).run (State letters)) (after_event (case_model self.old).run (State letters)) (case_model self.old).run) }
        ensures steps { (stepped_model self.new).steps ≡ (stepped_model self.old).steps }
        ensures kit { self.new.kit ≡ self.old.kit }
    {
        self.run.record(Event::State(letters))
    }

    // Closes the run by a back position: its number of positions.
    pub fn close_loop(&mut self, back: usize) -> Result<usize, CaseFault>
        ensures value { result ≡ answer_unless (loop_objection (case_model self.old) back) (length (case_model self.old).run.states) }
        ensures after { case_model self.new ≡ kept_unless (loop_objection (case_model self.old) back) (with_run (case_model self.old) (after_event (case_model self.old).run (Loop back))) (case_model self.old) }
        ensures steps { (stepped_model self.new).steps ≡ (stepped_model self.old).steps }
        ensures means { (u : Run) → u.states ≡ (case_model self.old).run.states → u.back ≡ back → LoopMeans (case_model self.old) u result }
        ensures kit { self.new.kit ≡ self.old.kit }
    {
        let mut run = self.run;
        let count = run.record(Event::Loop(back))?;
        if let Some(number) = self.false_root(back) {
            return Err(CaseFault::FalseRoot(number));
        }
        self.run = run;
        Ok(count)
    }

    // The smallest number of a root formula that is false at position 0 of the held states with a back position.
    fn false_root(&self, back: usize) -> Option<usize>
        requires { back < length (case_model self.now).run.states }
        ensures { result ≡ false_root (case_model self.now) back }
    {
        let rows = self.table.rows(self.run.states(), back);
        self.roots.least_false(&rows)
    }

    // Clears the run, open or closed: 0.
    pub fn drop_run(&mut self) -> usize
        ensures value { result ≡ 0 }
        ensures after { case_model self.new ≡ with_run (case_model self.old) (after_event (case_model self.old).run Dropped) }
        ensures steps { (stepped_model self.new).steps ≡ (stepped_model self.old).steps }
        ensures kit { self.new.kit ≡ self.old.kit }
    {
        let _ = self.run.record(Event::Drop);
        0
    }

    // The positions of the held states, with a back position, that satisfy a formula, as bits.
    pub fn row(&self, number: usize, back: usize) -> Result<u64, CaseFault>
        ensures { RowMeans (case_model self.now) number back result }
    {
        if number >= self.table.len() {
            return Err(CaseFault::NotInTable(0));
        }
        if back >= self.run.states().len() {
            return Err(CaseFault::NoPosition);
        }
        Ok(
            self.table
                .rows(self.run.states(), back)
                .row(Number(number as u16)),
        )
    }
}
