// A gate at which two calls cross.

use crate::signal::Signal;
use tl_workers::Gate;

/// The point of its second turn at which call 0 is held: before the turn, or after its local instructions.
#[derive(Clone, Copy, Debug, PartialEq, Eq)]
pub enum Point {
    Pass,
    Ready,
}

/// Holds call 1 before its first turn until call 0 has reached that point of its second turn. Holds call 0 there until call 1 was
/// answered.
#[derive(Drop)]
pub struct Crossing {
    point: Point,
    has_come: Signal,
    was_answered: Signal,
}

impl Crossing {
    /// A gate at which no call has come yet.
    pub fn new(point: Point) -> Crossing {
        Crossing {
            point,
            has_come: Signal::new(),
            was_answered: Signal::new(),
        }
    }

    // Call 0 has reached a point of its second turn.
    fn come_to(&self, point: Point) {
        if point == self.point {
            self.has_come.tell();
            self.was_answered.wait();
        }
    }

    /// Neither call was held for too long.
    pub fn came_in_time(&self) -> bool {
        self.has_come.came_in_time() && self.was_answered.came_in_time()
    }
}

impl Gate for Crossing {
    fn pass(&self, call: u32, turn: u64) {
        match (call, turn) {
            (1, 1) => self.has_come.wait(),
            (0, 2) => self.come_to(Point::Pass),
            _ => {}
        }
    }

    fn ready(&self, call: u32, turn: u64) {
        if (call, turn) == (0, 2) {
            self.come_to(Point::Ready);
        }
    }

    fn answered(&self, call: u32) {
        if call == 1 {
            self.was_answered.tell();
        }
    }
}
