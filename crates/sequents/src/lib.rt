// Kit `s`: the sequent rules.
#![tactic(auto)]

ghost use Rattle.std.specs.Prelude.{◌≡◌, refl};
ghost use Rattle.kits.specs.Names.{lookup};
ghost use Rattle.sequents.specs.SequentRules.{sequent_knows, sequent_names, sequent_allows};
ghost use Rattle.kits.proofs.FoundNames.{found_passes, found_once};
ghost use Rattle.std.proofs.lemmas.Bool.{and_from, le-leb};
ghost use Rattle.sequents.specs.AllowedSteps.{allowed_is};
ghost use Rattle.sequents.specs.RulePlans.{rule_known};
ghost use borrow.Author.Rules.{rules};
ghost use Rattle.calculus.proofs.SoundRules.{rules_law};
ghost use Rattle.tables.specs.Listing;

mod judging;
mod premises;
mod rooms;
mod rule;
mod rules;

use judging::is_allowed;
use kits::{Kit, KitFault, Step};
use rule::SequentRule;
use tables::{Sequent, Table};

// The sequent rules, numbered 1 to 11.
#[derive(Clone, Copy)]
pub struct Sequents;

impl Kit for Sequents {
    const LETTER: u8 = b's';

    ghost knows = { λ _ n. sequent_knows n };

    ghost allows = { λ _ fs st. sequent_allows fs st };

    ghost named = { λ _ w. lookup sequent_names w };

    ghost numbered = { Prim.search rules };

    ghost named_known = { λ k w n e. found_passes sequent_knows sequent_names w n refl e };

    ghost named_once = { λ k v w n e l. found_once sequent_names v w n refl e l };

    ghost allowed_known = { λ k fs st e. let h = rule_known (allowed_is fs st e).1 in and_from _ _ (le-leb 1 st.rule h.0) (le-leb st.rule 11 h.1) };

    ghost allowed_few = { unfold sequent_allows in Prim.search rules };

    ghost sound = { λ k fs st e empty. rules_law st.conclusion (Listing.numbered fs st.principal) st.rule st.premises (allowed_is fs st e).1 empty };

    fn judge(&self, table: &Table, step: &Step, premises: &[Sequent]) -> Result<(), KitFault> {
        let rule = SequentRule::try_from(step.rule)?;
        if is_allowed(table, rule, step, premises) {
            Ok(())
        } else {
            Err(KitFault::NotAllowed)
        }
    }

    fn find(&self, name: &[u8]) -> Option<u16> {
        SequentRule::named(name).map(u16::from)
    }
}
