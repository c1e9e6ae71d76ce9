// The numbers of a sequent one by one, the smallest first.
ghost use Rattle.std.specs.Prelude.{◌≡◌};
ghost use Rattle.std.specs.Iterator.{YieldsFirst, item_count};
ghost use Rattle.tables.specs.Sets.{numbers_left};

use super::super::number::Number;
use super::Sequent;

// The numbers of a set that are still to come.
#[derive(Drop)]
pub struct Members {
    rest: Sequent,
}

impl Iterator for Members {
    type Item = Number;

    ghost next_gives = { YieldsFirst numbers_left };

    ghost remaining = { item_count numbers_left };

    fn next(&mut self) -> Option<Number> {
        let first = self.rest.first()?;
        self.rest = self.rest.without(first);
        Some(first)
    }
}

impl Sequent {
    // The numbers of the set, the smallest first.
    pub fn iter(&self) -> Members
        ensures { result.rest ≡ self.now }
    {
        Members { rest: *self }
    }
}
