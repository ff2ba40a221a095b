// Copies of values that are kept.

ghost use Rattle.std.specs.Prelude.{◌≡◌, ◌≤◌, length};

use arrayvec::ArrayVec;

/// A copy of the values that takes no memory. Arguments and replies are kept like this.
pub fn copied<const N: usize>(values: &[i64]) -> ArrayVec<i64, N>
    requires { length values.now ≤ N }
    ensures { result.items ≡ values.now }
{
    let mut copy = ArrayVec::new();
    let Ok(()) = copy.try_extend_from_slice(values) else {
        unreachable!()
    };
    copy
}
