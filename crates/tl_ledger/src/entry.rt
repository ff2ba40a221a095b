// What a table has a row of.

ghost use Rattle.std.specs.Prelude.{◌≡◌, ◌++◌, OnOk};
ghost use Rattle.sqlite_value.specs.Order.{Row as Columns};

use sqlite_value::row::Row;
use std::alloc::AllocError;

/// What a table has a row of.
pub trait Entry {
    /// The columns of its row, without the row's number.
    ghost columns: { Self → Columns };

    /// Adds these columns to a row.
    fn push_to(&self, row: &mut Row) -> Result<(), AllocError>
        ensures { OnOk result (row.new ≡ row.old ++ columns self.now) };
}
