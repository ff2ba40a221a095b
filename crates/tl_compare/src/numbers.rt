// Lists of numbers.

ghost use Rattle.std.specs.Prelude.{◌≡◌, ◌↔◌, IsTrue};

/// Whether they are the same numbers.
pub(crate) fn are_same(some: &[i64], others: &[i64]) -> bool
    ensures { IsTrue result ↔ (some.now ≡ others.now) }
{
    some == others
}

/// Whether they are the same calls.
pub(crate) fn are_same_calls(some: &[u32], others: &[u32]) -> bool
    ensures { IsTrue result ↔ (some.now ≡ others.now) }
{
    some == others
}
