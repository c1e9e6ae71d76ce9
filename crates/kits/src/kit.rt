// The interface of a kit.
ghost use Rattle.std.specs.Prelude.{◌≡◌, ℕ, ◌≤◌, Bool, true, List, length, Some, Option as Optional};
ghost use Rattle.pltl.specs.Formulas.{Formula};
ghost use Rattle.calculus.specs.Sequents.{NoRun};
ghost use Rattle.calculus.specs.Laws.{NoRuns};
ghost use Rattle.kits.specs.Steps.{StepModel, listed, step_model, judgement};

use super::faults::KitFault;
use super::steps::Step;
use tables::{Sequent, Table};

// A kit: a set of proof rules. It says which rules it knows, by number, which steps it allows, read in a table's
// formulas, and which names stand for which rules.
pub trait Kit {
    // The letter by which a case file chooses the kit.
    const LETTER: u8;

    ghost knows: { Self → ℕ → Bool };

    ghost allows: { Self → List Formula → StepModel → Bool };

    ghost named: { Self → List ℕ → Optional ℕ };

    // Whether the rule is known and the step allowed, or why it is not.
    fn judge(&self, table: &Table, step: &Step, premises: &[Sequent]) -> Result<(), KitFault>
        ensures { result ≡ judgement (knows self.now step.now.rule) (allows self.now (listed table.now) (step_model (listed table.now) step.now premises.now)) };

    // The number of a name.
    fn find(&self, name: &[u8]) -> Option<u16>
        ensures { result ≡ named self.now name.now };

    // Known rules are numbered from 1 to 999.
    ghost numbered: { (k : Self) (n : ℕ) → knows k n ≡ true → (1 ≤ n) × (n ≤ 999) };

    // Names have known numbers, each its own.
    ghost named_known: { (k : Self) (w : List ℕ) (n : ℕ) → named k w ≡ Some n → knows k n ≡ true };

    ghost named_once: { (k : Self) (v w : List ℕ) (n : ℕ) → named k v ≡ Some n → named k w ≡ Some n → v ≡ w };

    // Allowed steps are of known rules, and in a table, which has at most 512 formulas, have a principal number of at
    // most 9,999.
    ghost allowed_known: { (k : Self) (fs : List Formula) (st : StepModel) → allows k fs st ≡ true → knows k st.rule ≡ true };

    ghost allowed_few: { (k : Self) (fs : List Formula) (st : StepModel) → allows k fs st ≡ true → length fs ≤ 512 → st.principal ≤ 9999 };

    // If a step is allowed and no premise has a looping run, of any length, that satisfies all its formulas, neither
    // has the conclusion.
    ghost sound: { (k : Self) (fs : List Formula) (st : StepModel) → allows k fs st ≡ true → NoRuns st.premises → NoRun st.conclusion };
}
