// The states that have arrived at a position so far.

ghost use Rattle.std.specs.Prelude.{◌≡◌, ℕ, ◌<◌, List, length, slice_set, get_or, Some, None, false};
ghost use Rattle.tl_verify.specs.declared.arrivals.Arrivals.{Arrivals as Arrivals'};
ghost use Rattle.tl_verify.specs.Pass.{Merges, MergesWith};

use crate::marks::Marks;
use crate::register_set::RegisterSet;

/// The states that have arrived at a position so far, merged into one: `first` is spent if it was spent in any of them, and
/// `differ` says whether they differ in what they hold.
#[derive(Clone, Copy, Debug, PartialEq, Eq)]
pub struct Arrivals {
    pub marks: Marks,
    pub differ: bool,
}

impl Arrivals {
    /// What arrives at the first position: all registers are empty, and `first` is open.
    pub const ENTRY: Arrivals = Arrivals {
        marks: Marks {
            held: RegisterSet::EMPTY,
            is_open: true,
        },
        differ: false,
    };

    // The first state to arrive.
    fn of(marks: Marks) -> Self
        ensures { result ≡ record { marks = marks; differ = false } }
    {
        Arrivals {
            marks,
            differ: false,
        }
    }

    // Merges one more state.
    fn with(self, marks: Marks) -> Self
        ensures { MergesWith self marks result }
    {
        let differ = self.differ | (self.marks.held != marks.held);
        let is_open = self.marks.is_open & marks.is_open;
        Arrivals {
            marks: Marks {
                held: self.marks.held,
                is_open,
            },
            differ,
        }
    }
}

/// Adds one more state to a position.
pub fn arrive(states: &mut [Option<Arrivals>], to: usize, marks: Marks)
    requires { to < length states.old }
    ensures { (a : Arrivals') × (states.new ≡ slice_set states.old to (Some a)) × Merges (get_or states.old to None) marks a }
{
    let arrivals = match states[to] {
        None => Arrivals::of(marks),
        Some(earlier) => earlier.with(marks),
    };
    states[to] = Some(arrivals);
}
