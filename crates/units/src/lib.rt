// Kit `u`: unit closure.
#![tactic(auto)]

ghost use Rattle.std.specs.Prelude.{◌≡◌};
ghost use Rattle.kits.specs.Names.{lookup};
ghost use Rattle.units.specs.UnitRule.{unit_knows, unit_names, unit_allows};
ghost use Rattle.std.proofs.lemmas.Bool.{eq-eqb};
ghost use Rattle.units.specs.UnitSteps.{unit_asks};
ghost use Rattle.std.proofs.Common.{arith, rules};
ghost use Rattle.calculus.proofs.SoundUnits.{units_law};

mod closure;

use closure::is_contradictory;
use kits::{Kit, KitFault, Step};
use tables::{Sequent, Table};

// The number of the one rule.
const UNIT: u16 = 1;

// Unit closure, rule 1.
#[derive(Clone, Copy)]
pub struct Units;

impl Kit for Units {
    const LETTER: u8 = b'u';

    ghost knows = { λ _ n. unit_knows n };

    ghost allows = { λ _ fs st. unit_allows st };

    ghost named = { λ _ w. lookup unit_names w };

    ghost numbered = { Prim.search rules };

    ghost named_known = { Prim.search rules };

    ghost named_once = { Prim.search rules };

    ghost allowed_known = { λ k fs st e. eq-eqb st.rule 1 (unit_asks st e).0 };

    ghost allowed_few = { λ k fs st e. omega (arith, (unit_asks st e).1) };

    ghost sound = { λ k fs st e runs. units_law st.conclusion (unit_asks st e).3 };

    fn judge(&self, table: &Table, step: &Step, premises: &[Sequent]) -> Result<(), KitFault> {
        if step.rule != UNIT {
            return Err(KitFault::Unknown);
        }
        if step.principal == 0 && premises.is_empty() && is_contradictory(table, &step.conclusion) {
            Ok(())
        } else {
            Err(KitFault::NotAllowed)
        }
    }

    fn find(&self, name: &[u8]) -> Option<u16> {
        match name {
            b"unit" => Some(UNIT),
            _ => None,
        }
    }
}
