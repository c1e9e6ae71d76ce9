// Formula numbers.
ghost use Rattle.tables.specs.Numbers.{beside_number};

use pltl::Dual;

// The number of a formula in a table.
#[derive(Clone, Copy, PartialEq, Eq)]
pub struct Number(pub u16);

impl Dual for Number {
    ghost dualized = { beside_number };

    // The number of the opposite.
    fn dual(self) -> Number {
        if self.0 % 2 == 0 {
            Number(self.0 + 1)
        } else {
            Number(self.0 - 1)
        }
    }
}
