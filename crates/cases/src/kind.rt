// The kinds of clauses.
ghost use Rattle.std.specs.Prelude.{◌≡◌};
ghost use Rattle.cases.specs.Drafts.{KindNumbered, form_of, root_number, is_property};

use super::faults::CaseFault;
use pltl::Dual;
use tables::{Form, Number};

#[derive(Clone, Copy)]
pub enum ClauseKind {
    // How a run starts.
    Init,
    // What stays true.
    Invariant,
    // How one moment leads to the next.
    Transition,
    // What is claimed.
    Property,
}

// The kind with a number, from 1 to 4.
impl TryFrom<usize> for ClauseKind {
    type Error = CaseFault;

    ghost try_from_gives = { KindNumbered };

    fn try_from(number: usize) -> Result<ClauseKind, CaseFault> {
        match number {
            1 => Ok(ClauseKind::Init),
            2 => Ok(ClauseKind::Invariant),
            3 => Ok(ClauseKind::Transition),
            4 => Ok(ClauseKind::Property),
            _ => Err(CaseFault::UnknownKind),
        }
    }
}

impl ClauseKind {
    // Which formula of the text is numbered: an invariant and a transition stand under an always.
    pub fn form(self) -> Form
        ensures { result ≡ form_of self }
    {
        match self {
            ClauseKind::Init | ClauseKind::Property => Form::Itself,
            ClauseKind::Invariant | ClauseKind::Transition => Form::Always,
        }
    }

    pub fn is_property(self) -> bool
        ensures { result ≡ is_property self }
    {
        matches!(self, ClauseKind::Property)
    }

    // The number of the root formula, by that of the formula that was numbered: of a property, the opposite.
    pub fn root(self, entered: Number) -> Number
        ensures { result.0 ≡ root_number self entered.0 }
    {
        match self {
            ClauseKind::Init | ClauseKind::Invariant | ClauseKind::Transition => entered,
            ClauseKind::Property => entered.dual(),
        }
    }
}
