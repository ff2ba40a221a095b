// The rule of the queue.

use crossbeam_queue::RuledArrayQueue;
use crossbeam_queue::protocol::{Lesson, Outcome, Protocol, Split};
use std::collections::LinkedList;

/// What went through a pass: the numbers that it pushed and those that it popped, in order. Only contracts use it; no value
/// of it exists.
pub struct Handed {
    pub pushed: LinkedList<u32>,
    pub popped: LinkedList<u32>,
}

/// The rule: each number was pushed exactly as often as it was popped, plus as often as it is in the queue.
pub struct Counted;

impl Protocol<u32, Handed> for Counted {
    ghost use Rattle.std.specs.Prelude.{[]};
    ghost use Rattle.tl_ready.specs.Rule.{handed, IsBalanced};

    ghost holds = { IsBalanced };

    ghost first = { handed [] [] };
}

/// A pass pushes a number.
pub struct Pushes;

impl Outcome<u32, Handed> for Pushes {
    ghost use Rattle.std.specs.Prelude.{◌≡◌, ◌++◌, ◌∷◌, []};
    ghost use Rattle.tl_ready.specs.Rule.{handed};

    ghost then = { λ v x w. w ≡ handed (v.pushed ++ x ∷ []) v.popped };
}

impl Lesson<u32, Handed> for Pushes {
    ghost fact = { λ v items. Unit {0} };
}

/// A pass pops a number.
pub struct Pops;

impl Outcome<u32, Handed> for Pops {
    ghost use Rattle.std.specs.Prelude.{◌≡◌, ◌++◌, ◌∷◌, []};
    ghost use Rattle.tl_ready.specs.Rule.{handed};

    ghost then = { λ v x w. w ≡ handed v.pushed (v.popped ++ x ∷ []) };
}

impl Lesson<u32, Handed> for Pops {
    ghost fact = { λ v items. Unit {0} };
}

/// A queue of numbers that keeps the rule.
pub type Queue = RuledArrayQueue<u32, Handed, Counted>;
