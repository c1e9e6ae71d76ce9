// The calls step and verdict.
ghost use Rattle.std.specs.Prelude.{◌≡◌, ℕ, ◌<◌, ◌≤◌, true, false, ◌&&◌, map, length, take, Some, None, vec_len, MatchResult, ◌≢◌, nat_le, nat_lt};
ghost use Rattle.tables.specs.Sets.{member, chosen};
ghost use Rattle.kits.specs.Steps.{formulas_in};
ghost use Rattle.cases.specs.declared.faults.CaseFault.TheVariants.{NotInTable};
ghost use Rattle.cases.specs.Roots.{contains};
ghost use Rattle.cases.specs.Steps.{first_unfit, first_missing, at_index, premises_objection, numbers_objection, conclusion_of, step_objection, step_answer, after_step};
ghost use Rattle.std.specs.List.{list_any};
ghost use Rattle.cases.specs.Verdicts.{only_roots, verdict, verdict_number, Means, SameFormulas, root_formulas};
ghost use Rattle.cases.specs.Views.{case_model, stepped_model, kit_model, step_call_model};

use super::super::call::StepCall;
use super::super::faults::{CallFault, CaseFault};
use super::super::verdict::Verdict;
use super::{Case, MOST_STEPS};
use arrayvec::ArrayVec;
use kits::{Kit, KitFault, Step};
use tables::{Number, Sequent};

// The most premises that a step has.
const MOST_PREMISES: usize = 2;

impl<K: Kit + Drop> Case<K> {
    // Takes a step: its number, counted from 1.
    pub fn step(&mut self, step: StepCall<'_>) -> Result<usize, CallFault>
        ensures value { result ≡ step_answer (kit_model K.Kit.knows K.Kit.allows self.old.kit) (stepped_model self.old) (step_call_model step.entry) }
        ensures after { stepped_model self.new ≡ after_step (kit_model K.Kit.knows K.Kit.allows self.old.kit) (stepped_model self.old) (step_call_model step.entry) }
        ensures kit { self.new.kit ≡ self.old.kit }
    {
        let conclusion = self.judged(step)?;
        self.steps.push_reserved(conclusion);
        Ok(self.steps.len())
    }

    // The conclusion of a step that is allowed, or what is objected to the step.
    fn judged(&self, step: StepCall<'_>) -> Result<Sequent, CallFault>
        ensures { MatchResult result (λ s. (step_objection (kit_model K.Kit.knows K.Kit.allows self.now.kit) (stepped_model self.now) (step_call_model step.entry) ≡ None) × (member s ≡ contains step.entry.conclusion.now)) (λ f. step_objection (kit_model K.Kit.knows K.Kit.allows self.now.kit) (stepped_model self.now) (step_call_model step.entry) ≡ Some f) }
    {
        let conclusion = self.admitted_step(step)?;
        let premises = self.held(step.premises);
        let read = Step {
            rule: step.rule,
            principal: step.principal,
            conclusion,
        };
        // An arm for each answer, and no `?`, so that an edit can turn one answer and leave the others.
        match self.kit.judge(&self.table, &read, &premises) {
            Ok(()) => Ok(conclusion),
            Err(KitFault::Unknown) => Err(CallFault::Kit(KitFault::Unknown)),
            Err(KitFault::NotAllowed) => Err(CallFault::Kit(KitFault::NotAllowed)),
        }
    }

    // The conclusion of a step as a set, or what the case objects to the step before its kit is asked.
    fn admitted_step(&self, step: StepCall<'_>) -> Result<Sequent, CaseFault>
        ensures { MatchResult result (λ s. (numbers_objection (stepped_model self.now) (step_call_model step.entry) ≡ None) × ((k : ℕ) → member s k ≡ contains step.entry.conclusion.now k)) (λ f. numbers_objection (stepped_model self.now) (step_call_model step.entry) ≡ Some f) }
    {
        if self.steps.len() >= MOST_STEPS {
            return Err(CaseFault::TooManySteps);
        }
        let conclusion = rising_set(step.conclusion, self.table.len())?;
        if step.premises.len() > MOST_PREMISES {
            return Err(CaseFault::NoSuchStep(MOST_PREMISES));
        }
        if let Some(index) = first_missing(step.premises, self.steps.len()) {
            return Err(CaseFault::NoSuchStep(index));
        }
        Ok(conclusion)
    }

    // The conclusions of up to two taken steps, by their numbers.
    fn held(&self, premises: &[u16]) -> ArrayVec<Sequent, MOST_PREMISES>
        requires { premises_objection (vec_len self.now.steps) premises.now ≡ None }
        ensures { map member result.items ≡ map (conclusion_of (stepped_model self.now).steps) premises.now }
    {
        let mut held = ArrayVec::new();
        for premise in premises {
            held.push(self.steps[*premise as usize - 1]);
        }
        held
    }

    // Holds, if some taken step's conclusion has only root formulas, else a counterexample, if the run is closed.
    pub fn verdict(&self) -> Verdict
        ensures value { verdict_number result ≡ verdict (stepped_model self.now) }
        ensures means { Means (case_model self.now) (verdict_number result) }
    {
        if self.has_refuted_roots() {
            Verdict::Holds
        } else if self.run.is_closed() {
            Verdict::Counterexample
        } else {
            Verdict::Undecided
        }
    }

    // Whether some taken step's conclusion has only root formulas.
    fn has_refuted_roots(&self) -> bool
        ensures { result ≡ list_any (only_roots (case_model self.now)) (stepped_model self.now).steps }
    {
        let roots = self.roots.sequent();
        for conclusion in self.steps.iter() {
            if conclusion.is_within(&roots) {
                return true;
            }
        }
        false
    }
}

// Numbers as a set, where they rise and are below `len`, or the first index at which they do not.
fn rising_set(numbers: &[u16], len: usize) -> Result<Sequent, CaseFault>
    requires { len ≤ 512 }
    ensures { MatchResult result (λ s. (first_unfit len 0 0 numbers.now ≡ None) × ((k : ℕ) → member s k ≡ contains numbers.now k)) (λ f. at_index NotInTable (first_unfit len 0 0 numbers.now) ≡ Some f) }
{
    let mut set = Sequent::empty();
    let mut low: usize = 0;
    for (i, number) in numbers.iter().enumerate() {
        let n = *number as usize;
        if !is_from(n, low, len) {
            return Err(CaseFault::NotInTable(i));
        }
        set = set.with(Number(*number));
        low = n + 1;
    }
    Ok(set)
}

// Whether a number is at least `low` and below `end`.
fn is_from(n: usize, low: usize, end: usize) -> bool
    ensures { result ≡ (nat_le low n && nat_lt n end) }
{
    (low..end).contains(&n)
}

// Whether a number is from 1 to `count`.
fn is_counted(n: usize, count: usize) -> bool
    ensures { result ≡ (nat_le 1 n && nat_le n count) }
{
    (1..=count).contains(&n)
}

// The index of the first number that is not from 1 to `count`.
fn first_missing(numbers: &[u16], count: usize) -> Option<usize>
    ensures { result ≡ first_missing count 0 numbers.now }
{
    numbers
        .iter()
        .position(|number| !is_counted(*number as usize, count))
}

// The verdicts of two cases. Where they have the same root formulas, never does one hold while the other has a
// counterexample, whatever kits they have.
pub fn verdicts<A: Kit + Drop, B: Kit + Drop>(one: &Case<A>, other: &Case<B>) -> (Verdict, Verdict)
    ensures value { (verdict_number result.0 ≡ verdict (stepped_model one.now)) × (verdict_number result.1 ≡ verdict (stepped_model other.now)) }
    ensures never_both { SameFormulas (root_formulas (case_model one.now)) (root_formulas (case_model other.now)) → (verdict_number result.0 ≡ 1 → verdict_number result.1 ≢ 2) × (verdict_number result.0 ≡ 2 → verdict_number result.1 ≢ 1) }
{
    (one.verdict(), other.verdict())
}
