// The instructions.

use crate::cell::Cell;
use crate::operand::{Field, NodeRegister, ValueRegister};
use crate::version::Version;
use tl_width::NARROW_FIELD_COUNT;

/// One instruction. A target is the position that control goes to, counted from 0.
#[derive(Clone, Copy, Debug, PartialEq, Eq)]
pub enum Instr {
    /// `set vx w`: the register takes the number.
    Set {
        to: ValueRegister,
        number: i32,
    },
    /// `copy vx vy`: the register takes the other's value.
    Copy {
        to: ValueRegister,
        from: ValueRegister,
    },
    /// `add vx vy vz else L`: the sum; control goes to the target if it doesn't fit 64 bits.
    Add {
        to: ValueRegister,
        left: ValueRegister,
        right: ValueRegister,
        otherwise: u16,
    },
    /// `sub vx vy vz else L`: the difference; control goes to the target if it doesn't fit 64 bits.
    Subtract {
        to: ValueRegister,
        left: ValueRegister,
        right: ValueRegister,
        otherwise: u16,
    },
    /// `mul vx vy vz else L`: the product; control goes to the target if it doesn't fit 64 bits.
    Multiply {
        to: ValueRegister,
        left: ValueRegister,
        right: ValueRegister,
        otherwise: u16,
    },
    /// `div vx vy vz else L`: the quotient, rounded toward 0; control goes to the target if the divisor is 0 or the
    /// quotient doesn't fit 64 bits.
    Divide {
        to: ValueRegister,
        left: ValueRegister,
        right: ValueRegister,
        otherwise: u16,
    },
    /// `jmp L`: control goes to the target.
    Jump {
        target: u16,
    },
    /// `jlt vx vy L`: control goes to the target if the left value is less than the right one.
    JumpIfLess {
        left: ValueRegister,
        right: ValueRegister,
        target: u16,
    },
    /// `jeq vx vy L`: control goes to the target if the values are equal.
    JumpIfEqual {
        left: ValueRegister,
        right: ValueRegister,
        target: u16,
    },
    /// `rep w`: the body, up to the matching `end`, runs `count` times.
    Repeat {
        count: u16,
    },
    /// `repv vx w`: the body runs as often as the register says, but at least 0 and at most `count` times. The register is
    /// read once, when the loop begins.
    RepeatBy {
        turns: ValueRegister,
        count: u16,
    },
    /// `end`: a turn of the innermost loop ends.
    End,
    /// `first nx vy else L`: locks the node with that number; control goes to the target if there is no such node.
    First {
        to: NodeRegister,
        number: ValueRegister,
        otherwise: u16,
    },
    /// `child nx ny vz else L`: locks that child of a held node; control goes to the target if the cursor is past that
    /// child or there is no such child.
    Child {
        to: NodeRegister,
        parent: NodeRegister,
        number: ValueRegister,
        otherwise: u16,
    },
    /// `move nx ny`: the register takes the other's node and cursor, and leaves the other empty.
    Move {
        to: NodeRegister,
        from: NodeRegister,
    },
    /// `rel nx`: frees the node, and leaves the register empty.
    Release {
        node: NodeRegister,
    },
    /// `get vx ny z`: the register takes the field of a held node.
    Get {
        to: ValueRegister,
        node: NodeRegister,
        field: Field,
    },
    /// `put nx y vz`: the field of a held node takes the value.
    Put {
        node: NodeRegister,
        field: Field,
        from: ValueRegister,
    },
    /// `kids vx ny`: the register takes the number of the held node's children.
    Kids {
        to: ValueRegister,
        node: NodeRegister,
    },
    /// `emit vx`: appends the value to the reply.
    Emit {
        from: ValueRegister,
    },
    /// `ret`: the call ends.
    Return,
}

impl Instr {
    ghost use Rattle.std.specs.Prelude.{◌≡◌, ◌↔◌, IsTrue};
    ghost use Rattle.tl_instr.specs.Instructions.{target, with_target, InRange};
    ghost use Rattle.tl_instr.specs.Versions.{HasOpcode, HasInstr};
    ghost use Rattle.tl_instr.specs.Spelling.{cell_of};

    /// The position to which control may go instead of the next one.
    pub fn target(&self) -> Option<u16>
        ensures { result ≡ target self.now }
    {
        match *self {
            Instr::Jump { target }
            | Instr::JumpIfLess { target, .. }
            | Instr::JumpIfEqual { target, .. } => Some(target),
            Instr::Add { otherwise, .. }
            | Instr::Subtract { otherwise, .. }
            | Instr::Multiply { otherwise, .. }
            | Instr::Divide { otherwise, .. }
            | Instr::First { otherwise, .. }
            | Instr::Child { otherwise, .. } => Some(otherwise),
            Instr::Set { .. }
            | Instr::Copy { .. }
            | Instr::Repeat { .. }
            | Instr::RepeatBy { .. }
            | Instr::End
            | Instr::Move { .. }
            | Instr::Release { .. }
            | Instr::Get { .. }
            | Instr::Put { .. }
            | Instr::Kids { .. }
            | Instr::Emit { .. }
            | Instr::Return => None,
        }
    }

    /// The instruction with `to` as its target, if it has a target.
    pub fn with_target(&self, to: u16) -> Instr
        ensures { result ≡ with_target to self.now }
    {
        let mut instr = *self;
        match &mut instr {
            Instr::Add { otherwise, .. } => *otherwise = to,
            Instr::Subtract { otherwise, .. } => *otherwise = to,
            Instr::Multiply { otherwise, .. } => *otherwise = to,
            Instr::Divide { otherwise, .. } => *otherwise = to,
            Instr::First { otherwise, .. } => *otherwise = to,
            Instr::Child { otherwise, .. } => *otherwise = to,
            Instr::Jump { target } => *target = to,
            Instr::JumpIfLess { target, .. } => *target = to,
            Instr::JumpIfEqual { target, .. } => *target = to,
            Instr::Set { .. }
            | Instr::Copy { .. }
            | Instr::Repeat { .. }
            | Instr::RepeatBy { .. }
            | Instr::End
            | Instr::Move { .. }
            | Instr::Release { .. }
            | Instr::Get { .. }
            | Instr::Put { .. }
            | Instr::Kids { .. }
            | Instr::Emit { .. }
            | Instr::Return => {}
        }
        instr
    }

    /// Whether the version has this opcode.
    pub(crate) fn has_opcode_in(&self, version: Version) -> bool
        ensures { IsTrue result ↔ HasOpcode version self.now }
    {
        match (version, *self) {
            (Version::One, Instr::RepeatBy { .. }) => false,
            _ => true,
        }
    }

    /// Whether the version has this instruction: both its opcode and, if it names one, its field.
    pub fn is_in(&self, version: Version) -> bool
        ensures { IsTrue result ↔ HasInstr version self.now }
    {
        match (version, *self) {
            (Version::One, Instr::RepeatBy { .. }) => false,
            (Version::One, Instr::Get { field, .. }) => field.index() < NARROW_FIELD_COUNT,
            (Version::One, Instr::Put { field, .. }) => field.index() < NARROW_FIELD_COUNT,
            _ => true,
        }
    }

    /// The opcode and the operands. An unused operand is 0.
    pub(crate) fn cell(&self) -> Cell
        ensures value { result ≡ cell_of self.now }
        ensures in_range { InRange self.now }
    {
        match *self {
            Instr::Set { to, number } => Cell::new(1, to.number(), 0, 0, number.cast_unsigned()),
            Instr::Copy { to, from } => Cell::new(2, to.number(), from.number(), 0, 0),
            Instr::Add {
                to,
                left,
                right,
                otherwise,
            } => Cell::new(
                3,
                to.number(),
                left.number(),
                right.number(),
                u32::from(otherwise),
            ),
            Instr::Subtract {
                to,
                left,
                right,
                otherwise,
            } => Cell::new(
                4,
                to.number(),
                left.number(),
                right.number(),
                u32::from(otherwise),
            ),
            Instr::Multiply {
                to,
                left,
                right,
                otherwise,
            } => Cell::new(
                5,
                to.number(),
                left.number(),
                right.number(),
                u32::from(otherwise),
            ),
            Instr::Divide {
                to,
                left,
                right,
                otherwise,
            } => Cell::new(
                6,
                to.number(),
                left.number(),
                right.number(),
                u32::from(otherwise),
            ),
            Instr::Jump { target } => Cell::new(7, 0, 0, 0, u32::from(target)),
            Instr::JumpIfLess {
                left,
                right,
                target,
            } => Cell::new(8, left.number(), right.number(), 0, u32::from(target)),
            Instr::JumpIfEqual {
                left,
                right,
                target,
            } => Cell::new(9, left.number(), right.number(), 0, u32::from(target)),
            Instr::Repeat { count } => Cell::new(10, 0, 0, 0, u32::from(count)),
            Instr::RepeatBy { turns, count } => {
                Cell::new(21, turns.number(), 0, 0, u32::from(count))
            }
            Instr::End => Cell::new(11, 0, 0, 0, 0),
            Instr::First {
                to,
                number,
                otherwise,
            } => Cell::new(12, to.number(), number.number(), 0, u32::from(otherwise)),
            Instr::Child {
                to,
                parent,
                number,
                otherwise,
            } => Cell::new(
                13,
                to.number(),
                parent.number(),
                number.number(),
                u32::from(otherwise),
            ),
            Instr::Move { to, from } => Cell::new(14, to.number(), from.number(), 0, 0),
            Instr::Release { node } => Cell::new(15, node.number(), 0, 0, 0),
            Instr::Get { to, node, field } => {
                Cell::new(16, to.number(), node.number(), field.number(), 0)
            }
            Instr::Put { node, field, from } => {
                Cell::new(17, node.number(), field.number(), from.number(), 0)
            }
            Instr::Kids { to, node } => Cell::new(18, to.number(), node.number(), 0, 0),
            Instr::Emit { from } => Cell::new(19, from.number(), 0, 0, 0),
            Instr::Return => Cell::new(20, 0, 0, 0, 0),
        }
    }
}
