// The loops of a code.

ghost use Rattle.std.specs.Prelude.{◌≡◌, ◌<◌, length};
ghost use Rattle.tl_budget.specs.Nested.{place_at};

use std::marker::Model;

/// What is kept for a position: how many loops have it in their body, and where the innermost of them opens. For a position
/// that opens a loop, also where its end is. A missing entry is 0. A place takes eight bytes, a factor by which a processor
/// scales an index as it reads.
#[derive(Clone, Copy, Debug, PartialEq, Eq)]
pub struct Place {
    pub depth: u32,
    pub opening: u16,
    pub close: u16,
}

/// The loops of a code: a place for each of its positions. Only `nest` makes one.
#[derive(Debug, Drop)]
pub struct Nest {
    pub(crate) places: Vec<Place>,
}

impl Model for Nest {
    ghost use Rattle.std.specs.Prelude.{List};
    ghost use Rattle.tl_budget.specs.declared.nested.Place.{Place};

    ghost Value = { List Place };

    ghost view = { λ n. n.places.items };

    ghost invariant = { λ n. Unit {0} };
}

impl Nest {
    /// How many loops have the position in their body, 0 to 4.
    pub fn depth_at(&self, position: u16) -> u32
        requires { position < length self.now }
        ensures { result ≡ (place_at self.now position).depth }
    {
        self.places[usize::from(position)].depth
    }

    /// The position at which the innermost loop around this position opens.
    pub fn opening_of(&self, position: u16) -> u16
        requires { position < length self.now }
        ensures { result ≡ (place_at self.now position).opening }
    {
        self.places[usize::from(position)].opening
    }

    /// The position of the end of the loop that opens at `opening`.
    pub fn end_of(&self, opening: u16) -> u16
        requires { opening < length self.now }
        ensures { result ≡ (place_at self.now opening).close }
    {
        self.places[usize::from(opening)].close
    }
}
