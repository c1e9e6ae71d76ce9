// The rules.
ghost use Rattle.std.specs.Prelude.{◌≡◌};
ghost use Rattle.kits.specs.Names.{lookup};
ghost use Rattle.sequents.specs.SequentRules.{sequent_names};
ghost use Rattle.sequents.specs.Numbered.{rule_number, rule_numbered, named_number};

use kits::KitFault;

// A rule of the kit.
#[derive(Clone, Copy, PartialEq, Eq)]
pub enum SequentRule {
    Contra,
    False,
    And,
    Or,
    Always,
    Some,
    Until,
    Release,
    SomeAgain,
    UntilAgain,
    Next,
}

impl From<SequentRule> for u16 {
    ghost from_gives = { λ r n. n ≡ rule_number r };

    fn from(rule: SequentRule) -> u16 {
        match rule {
            SequentRule::Contra => 1,
            SequentRule::False => 2,
            SequentRule::And => 3,
            SequentRule::Or => 4,
            SequentRule::Always => 5,
            SequentRule::Some => 6,
            SequentRule::Until => 7,
            SequentRule::Release => 8,
            SequentRule::SomeAgain => 9,
            SequentRule::UntilAgain => 10,
            SequentRule::Next => 11,
        }
    }
}

impl TryFrom<u16> for SequentRule {
    type Error = KitFault;

    ghost try_from_gives = { λ n r. r ≡ rule_numbered n };

    fn try_from(number: u16) -> Result<SequentRule, KitFault> {
        match number {
            1 => Ok(SequentRule::Contra),
            2 => Ok(SequentRule::False),
            3 => Ok(SequentRule::And),
            4 => Ok(SequentRule::Or),
            5 => Ok(SequentRule::Always),
            6 => Ok(SequentRule::Some),
            7 => Ok(SequentRule::Until),
            8 => Ok(SequentRule::Release),
            9 => Ok(SequentRule::SomeAgain),
            10 => Ok(SequentRule::UntilAgain),
            11 => Ok(SequentRule::Next),
            _ => Err(KitFault::Unknown),
        }
    }
}

impl SequentRule {
    // The rule of a name.
    pub(crate) fn named(name: &[u8]) -> Option<SequentRule>
        ensures { named_number result ≡ lookup sequent_names name.now }
    {
        match name {
            b"contra" => Some(SequentRule::Contra),
            b"false" => Some(SequentRule::False),
            b"and" => Some(SequentRule::And),
            b"or" => Some(SequentRule::Or),
            b"always" => Some(SequentRule::Always),
            b"some" => Some(SequentRule::Some),
            b"until" => Some(SequentRule::Until),
            b"release" => Some(SequentRule::Release),
            b"some+" => Some(SequentRule::SomeAgain),
            b"until+" => Some(SequentRule::UntilAgain),
            b"next" => Some(SequentRule::Next),
            _ => None,
        }
    }
}
