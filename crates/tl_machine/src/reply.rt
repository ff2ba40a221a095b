// The reply of a call.

ghost use Rattle.std.specs.Prelude.{◌≡◌, ◌↔◌, ◌≤◌, length, take, IsTrue};

use crate::call::CallState;
use std::marker::Model;
use tl_budget::MAX_EMITS;

/// The values that a call emitted, in order: at most 32. Plain data: a copy takes no memory, and two replies are equal if
/// they have the same values.
#[derive(Clone, Debug, Drop)]
pub struct Reply {
    values: [i64; MAX_EMITS],
    count: u8,
}

impl Model for Reply {
    ghost use Rattle.std.specs.Prelude.{List, ℤ, take, ◌≤◌};

    ghost Value = { List ℤ };

    ghost view = { λ r. take r.count r.values };

    ghost invariant = { λ r. r.count ≤ 32 };
}

impl PartialEq for Reply {
    ghost use Rattle.std.specs.Ordering.{int_eq};
    ghost use Rattle.std.specs.Cmp.{partial_equiv_from_equiv, int_eq_equiv};
    ghost use Rattle.std.specs.Cmp.Lexicographic.{pointwise, lists_equiv};

    ghost eq = { pointwise int_eq };

    ghost laws = { partial_equiv_from_equiv (lists_equiv int_eq_equiv) };

    fn eq(&self, other: &Reply) -> bool {
        self.values() == other.values()
    }
}

impl Eq for Reply {
    ghost use Rattle.std.specs.Cmp.{int_eq_equiv};
    ghost use Rattle.std.specs.Cmp.Lexicographic.{lists_equiv};

    ghost laws = { lists_equiv int_eq_equiv };
}

impl Reply {
    pub(crate) fn of(call: &CallState) -> Reply
        requires { call.now.emit_count ≤ 32 }
        ensures { result ≡ take call.now.emit_count call.now.emitted }
    {
        Reply {
            values: call.emitted,
            count: call.emit_count,
        }
    }

    /// A copy. Takes no memory.
    pub fn copy(&self) -> Reply
        ensures { result ≡ self.now }
    {
        Reply {
            values: self.values,
            count: self.count,
        }
    }

    /// Whether the other has the same values, as `==` says.
    pub fn is(&self, other: &Reply) -> bool
        ensures { IsTrue result ↔ (self.now ≡ other.now) }
    {
        *self == *other
    }

    /// The values, the first emitted first.
    pub fn values(&self) -> &[i64]
        ensures same { result.now ≡ self.now }
        ensures few { length self.now ≤ 32 }
    {
        &self.values[..usize::from(self.count)]
    }
}
