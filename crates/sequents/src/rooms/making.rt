// Rooms of the kinds that rules have.
ghost use Rattle.std.specs.Prelude.{◌≡◌};
ghost use Rattle.sequents.specs.declared.rooms.More.TheVariants.{Nothing, NextOf};

use super::{More, Room};
use tables::{Number, Sequent};

impl Room {
    // A set alone.
    pub(crate) fn of(set: Sequent) -> Room
        ensures { result ≡ record { set = set; more = Nothing } }
    {
        Room {
            set,
            more: More::Nothing,
        }
    }

    // A set, and X m.
    pub(crate) fn with_next(set: Sequent, m: Number) -> Room
        ensures { result ≡ record { set = set; more = NextOf m } }
    {
        Room {
            set,
            more: More::NextOf(m),
        }
    }
}
