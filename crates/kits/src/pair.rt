// Pairs of kits.
ghost use Rattle.std.specs.Prelude.{◌≡◌, Some};
ghost use Rattle.std.proofs.Common.{ap, ◌∙◌, ⊎_elim, arith, rules};
ghost use Rattle.kits.specs.Pairs.{pair_knows, pair_allows, pair_named, raised};
ghost use Rattle.kits.specs.PairedKits.{named_by_one, allowed_by_one};
ghost use Rattle.kits.specs.Pairs;

use super::faults::KitFault;
use super::kit::Kit;
use super::steps::Step;
use tables::{Sequent, Table};

// A pair of kits of any make, itself a kit: rules 1 to 99 go to the first, 101 to 999 to the second with 100 taken off.
#[derive(Clone, Copy, Drop)]
pub struct Pair<A, B> {
    pub first: A,
    pub second: B,
}

// The last rule of the first kit, how far the second's rules are moved, and the last rule of all.
const FIRST_RULES: u16 = 99;

const MOVED: u16 = 100;

const RULES: u16 = 999;

impl<A: Kit, B: Kit> Kit for Pair<A, B> {
    const LETTER: u8 = b'b';

    ghost knows = { λ p n. pair_knows (A.Kit.knows p.first) (B.Kit.knows p.second) n };

    ghost allows = { λ p fs st. pair_allows (A.Kit.allows p.first fs) (B.Kit.allows p.second fs) st };

    ghost named = { λ p w. pair_named (A.Kit.named p.first w) (B.Kit.named p.second w) };

    ghost numbered = { Prim.search rules };

    ghost named_known = { Prim.search rules };

    ghost named_once = { λ k v w n p q.
        let by_v = named_by_one (A.Kit.named k.first v) (B.Kit.named k.second v) n p in
        let by_w = named_by_one (A.Kit.named k.first w) (B.Kit.named k.second w) n q in
        ⊎_elim
        (λ a. ⊎_elim (λ b. A.Kit.named_once k.first v w n a.0 b.0) (λ b. absurd (omega (arith, a.1, b.2))) by_w)
        (λ a. ⊎_elim
        (λ b. absurd (omega (arith, b.1, a.2)))
        (λ b. let same : b.0 ≡ a.0 = omega (arith, a.2, b.2) in
        B.Kit.named_once k.second v w a.0 a.1 (b.1 ∙ ap Some same))
        by_w)
        by_v };

    ghost allowed_known = { Prim.search rules };

    ghost allowed_few = { Prim.search rules };

    ghost sound = { λ k fs st e none. ⊎_elim (λ a. A.Kit.sound k.first fs st a none) (λ b. B.Kit.sound k.second fs (Pairs.lowered st) b none) (allowed_by_one (A.Kit.allows k.first fs) (B.Kit.allows k.second fs) st e) };

    fn judge(&self, table: &Table, step: &Step, premises: &[Sequent]) -> Result<(), KitFault> {
        if step.rule <= FIRST_RULES {
            return self.first.judge(table, step, premises);
        }
        if step.rule <= MOVED || step.rule > RULES {
            return Err(KitFault::Unknown);
        }
        let lowered = Step {
            rule: step.rule - MOVED,
            ..*step
        };
        self.second.judge(table, &lowered, premises)
    }

    fn find(&self, name: &[u8]) -> Option<u16> {
        let Some(number) = self.first.find(name) else {
            return raised(self.second.find(name));
        };
        if number <= FIRST_RULES {
            return Some(number);
        }
        raised(self.second.find(name))
    }
}

// The second kit's number of a name as the pair's, if that is a rule's.
fn raised(number: Option<u16>) -> Option<u16>
    ensures { result ≡ raised number }
{
    let raised = number?.checked_add(MOVED)?;
    if raised <= RULES { Some(raised) } else { None }
}
