// What follows of rows between positions.

ghost use Rattle.std.specs.Prelude.{◌≡◌, ◌≤◌, ◌++◌, ℕ, List};
ghost use Rattle.sqlite_value.specs.Order.{Row};
ghost use Rattle.tl_follow.specs.Positions.{between};

/// Rows up to a position, and those from there on: together they are the rows from the first position on, in their order, each once.
pub fn rows_join()
    ensures { (rows : List Row) (a b c : ℕ) → a ≤ b → b ≤ c → between a b rows ++ between b c rows ≡ between a c rows }
{}
