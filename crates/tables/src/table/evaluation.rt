// The rows of all formulas of a table.
ghost use Rattle.std.specs.Prelude.{◌≡◌};
ghost use Rattle.tables.specs.Listing.{formulas};
ghost use Rattle.tables.specs.Rows.{recorded, RowsOf};

use super::super::rows::Rows;
use super::super::states::States;
use super::Table;

impl Table {
    // The rows of all formulas on the run that goes on from the last state at the back position. Parts come first, so one pass does.
    pub fn rows(&self, states: &States, back: usize) -> Rows
        ensures { RowsOf (recorded states.now.letters states.now.len) back (formulas self.now.shapes.items) result.words }
    {
        let mut rows = Rows::none();
        if back >= states.len() {
            return rows;
        }
        for (i, shape) in self.shapes.iter().enumerate() {
            let row = rows.evaluate(*shape, states, back);
            rows.set(i, row);
        }
        rows
    }
}
