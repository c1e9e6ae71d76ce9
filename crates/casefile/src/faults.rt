// Refusals of the line layer, and of a file.
ghost use Rattle.std.specs.Prelude.{◌≡◌};
ghost use Rattle.casefile.specs.declared.faults.LineFault.TheVariants.{Text, Case};
ghost use Rattle.casefile.specs.declared.faults.SheetFault.TheVariants.{NoMemory};
ghost use Rattle.casefile.specs.Faults.{refusal, from_call, fault_number};

use cases::{CallFault, CaseFault};
use kits::KitFault;
use std::alloc::AllocError;
use texts::{Layer, Refusal, TextFault};
use thiserror::Error;

// Why a line is refused: a fault of its own, or the fault that caused it.
#[derive(Clone, Copy)]
pub enum LineFault {
    // The line has no `=`, or its key is not due.
    NotDue,
    // The value is not of its form: the offset in the value of the first byte that cannot follow, or its length.
    Value(usize),
    Text(TextFault),
    Case(CaseFault),
    Kit(KitFault),
}

impl From<LineFault> for Refusal {
    ghost from_gives = { λ f r. r ≡ refusal f };

    fn from(fault: LineFault) -> Refusal {
        match fault {
            LineFault::NotDue => Refusal {
                number: 19,
                layer: Layer::Line,
                place: 0,
            },
            LineFault::Value(at) => Refusal {
                number: 20,
                layer: Layer::Line,
                place: at,
            },
            LineFault::Text(fault) => Refusal::from(fault),
            LineFault::Case(fault) => Refusal::from(fault),
            LineFault::Kit(fault) => Refusal::from(fault),
        }
    }
}

// By hand, and not derived, since `refusal` names the fault that `?` makes.
impl From<TextFault> for LineFault {
    ghost from_gives = { λ f r. r ≡ Text f };

    fn from(fault: TextFault) -> LineFault {
        LineFault::Text(fault)
    }
}

impl From<CallFault> for LineFault {
    ghost from_gives = { λ f r. r ≡ from_call f };

    fn from(fault: CallFault) -> LineFault {
        match fault {
            CallFault::Text(fault) => LineFault::Text(fault),
            CallFault::Case(fault) => LineFault::Case(fault),
            CallFault::Kit(fault) => LineFault::Kit(fault),
        }
    }
}

impl From<CaseFault> for LineFault {
    ghost from_gives = { λ f r. r ≡ Case f };

    fn from(fault: CaseFault) -> LineFault {
        LineFault::Case(fault)
    }
}

// What a caller in C is answered in place of the sheet's length.
pub const FILE_REFUSED: i64 = -22;

pub const BUFFER_TOO_SHORT: i64 = -21;

pub const NO_MEMORY: i64 = -100;

// Why there is no sheet.
#[derive(Clone, Copy, PartialEq, Eq, Debug, Drop, Error)]
pub enum SheetFault {
    #[error("the file is empty or too long, or does not end with a line")]
    FileRefused,
    #[error("the buffer has under 64 bytes for each line")]
    BufferTooShort,
    #[error("memory is wanting")]
    NoMemory,
}

impl From<AllocError> for SheetFault {
    ghost from_gives = { λ _ f. f ≡ NoMemory };

    fn from(_: AllocError) -> SheetFault {
        SheetFault::NoMemory
    }
}

impl From<SheetFault> for i64 {
    ghost from_gives = { λ f n. n ≡ fault_number f };

    fn from(fault: SheetFault) -> i64 {
        match fault {
            SheetFault::FileRefused => FILE_REFUSED,
            SheetFault::BufferTooShort => BUFFER_TOO_SHORT,
            SheetFault::NoMemory => NO_MEMORY,
        }
    }
}
