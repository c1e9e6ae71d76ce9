// Why a kit objects to a step.
ghost use Rattle.std.specs.Prelude.{◌≡◌};
ghost use Rattle.kits.specs.Faults.{refusal};

use texts::{Layer, Refusal};

#[derive(Clone, Copy, PartialEq, Eq)]
pub enum KitFault {
    // The kit does not know the rule or the name.
    Unknown,
    // The kit knows the rule and does not allow the step.
    NotAllowed,
}

impl From<KitFault> for Refusal {
    ghost from_gives = { λ f r. r ≡ refusal f };

    fn from(fault: KitFault) -> Refusal {
        let number = match fault {
            KitFault::Unknown => 9,
            KitFault::NotAllowed => 12,
        };
        Refusal {
            number,
            layer: Layer::Kit,
            place: 0,
        }
    }
}
