// Whether a step is one by the rule of its number.
ghost use Rattle.std.specs.Prelude.{◌≡◌, ◌<◌, map, length, Decides, ◌≢◌};
ghost use Rattle.calculus.specs.Rules.{Rule};
ghost use Rattle.tables.specs.Listing.{numbered};
ghost use Rattle.sequents.specs.SequentRules.{sequent_allows};
ghost use Rattle.sequents.specs.Numbered.{rule_number};
ghost use Rattle.kits.specs.Steps.{listed, formulas_in, step_model};

use super::premises::{Context, come_next};
use super::rooms::Conclusion;
use super::rule::SequentRule;
use kits::Step;
use tables::{Number, Sequent, Table};

// Whether a step is one by a rule, whose number it has.
pub(crate) fn is_allowed(
    table: &Table,
    rule: SequentRule,
    step: &Step,
    premises: &[Sequent],
) -> bool
    requires { step.now.rule ≡ rule_number rule }
    ensures { result ≡ sequent_allows (listed table.now) (step_model (listed table.now) step.now premises.now) }
{
    match rule {
        SequentRule::Next => step.principal == 0 && come_next(table, &step.conclusion, premises),
        _ => has_principal(table, rule, step, premises),
    }
}

// Whether a step is one by a rule with a principal formula, which is in the table and in the conclusion.
fn has_principal(table: &Table, rule: SequentRule, step: &Step, premises: &[Sequent]) -> bool
    requires { rule ≢ SequentRule.Next }
    ensures { Decides result ((step.now.principal < length (listed table.now)) × Rule (formulas_in (listed table.now) step.now.conclusion) (numbered (listed table.now) step.now.principal) (rule_number rule) (map (formulas_in (listed table.now)) premises.now)) }
{
    let m = Number(step.principal);
    let Some(shape) = table.shape(m) else {
        return false;
    };
    if !step.conclusion.contains(m) {
        return false;
    }
    let d = step.conclusion.without(m);
    let Some(plan) = Conclusion { m, shape, d }.plan(rule) else {
        return false;
    };
    Context { table, d: &d }.fit(plan, premises)
}
