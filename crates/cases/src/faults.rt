// Refusals of the case layer, and of a call.
ghost use Rattle.std.specs.Prelude.{◌≡◌};
ghost use Rattle.cases.specs.declared.faults.CallFault.TheVariants.{Text, Case, Kit};
ghost use Rattle.cases.specs.Faults.{case_refusal, refusal};

use kits::KitFault;
use texts::{Layer, Refusal, TextFault};

// Why a draft or a case refuses a call.
#[derive(Clone, Copy)]
pub enum CaseFault {
    // A clause's kind is not 1 to 4.
    UnknownKind,
    SecondProperty,
    // Forty clauses are taken.
    TooManyClauses,
    // A number is not in the table or not above the one before it: its index.
    NotInTable(usize),
    // There are over two premises, or no step has a premise's number: its index.
    NoSuchStep(usize),
    // Four hundred steps are taken.
    TooManySteps,
    // A state has a letter past the last one: the lowest such bit.
    StrayLetter(usize),
    // 64 positions are held.
    TooManyPositions,
    // The run is closed.
    ClosedRun,
    // There is no such back position.
    NoPosition,
    // A root formula is false at position 0: the smallest such number.
    FalseRoot(usize),
}

impl From<CaseFault> for Refusal {
    ghost from_gives = { λ f r. r ≡ case_refusal f };

    fn from(fault: CaseFault) -> Refusal {
        let (number, place) = match fault {
            CaseFault::UnknownKind => (6, 0),
            CaseFault::SecondProperty => (7, 0),
            CaseFault::TooManyClauses => (8, 0),
            CaseFault::NotInTable(index) => (10, index),
            CaseFault::NoSuchStep(index) => (11, index),
            CaseFault::TooManySteps => (13, 0),
            CaseFault::StrayLetter(bit) => (14, bit),
            CaseFault::TooManyPositions => (15, 0),
            CaseFault::ClosedRun => (16, 0),
            CaseFault::NoPosition => (17, 0),
            CaseFault::FalseRoot(number) => (18, number),
        };
        Refusal {
            number,
            layer: Layer::Case,
            place,
        }
    }
}

// Why a call is refused: the fault that caused it, of its own layer.
#[derive(Clone, Copy)]
pub enum CallFault {
    Text(TextFault),
    Case(CaseFault),
    Kit(KitFault),
}

impl From<CallFault> for Refusal {
    ghost from_gives = { λ f r. r ≡ refusal f };

    fn from(fault: CallFault) -> Refusal {
        match fault {
            CallFault::Text(fault) => Refusal::from(fault),
            CallFault::Case(fault) => Refusal::from(fault),
            CallFault::Kit(fault) => Refusal::from(fault),
        }
    }
}

// By hand, and not derived, since clauses name the fault that `?` makes.
impl From<TextFault> for CallFault {
    ghost from_gives = { λ f r. r ≡ Text f };

    fn from(fault: TextFault) -> CallFault {
        CallFault::Text(fault)
    }
}

impl From<CaseFault> for CallFault {
    ghost from_gives = { λ f r. r ≡ Case f };

    fn from(fault: CaseFault) -> CallFault {
        CallFault::Case(fault)
    }
}

impl From<KitFault> for CallFault {
    ghost from_gives = { λ f r. r ≡ Kit f };

    fn from(fault: KitFault) -> CallFault {
        CallFault::Kit(fault)
    }
}
