//! Reads the instruction of a cell.

ghost use Rattle.std.specs.Prelude.{◌≡◌, ◌≢◌, ◌↔◌, IsTrue, MatchOption};
ghost use Rattle.tl_instr.specs.Faults.{IsOpcode};
ghost use Rattle.tl_instr.specs.Instructions.{IsInstr};
ghost use Rattle.tl_instr.specs.Reading.{set_in, copy_in, add_in, subtract_in, multiply_in, divide_in, jump_in, jump_if_less_in, jump_if_equal_in, repeat_in, repeat_by_in, first_in, child_in, move_in, release_in, get_in, put_in, kids_in, emit_in, instr_in};
ghost use Rattle.tl_instr.specs.Spelling.{cell_of};

use crate::cell::Cell;
use crate::instr::Instr;
use crate::operand::{Field, NodeRegister, ValueRegister};
use crate::version::Version;

#[tactic(auto, unfolding(crate::specs::Reading::set_in))]
fn set(cell: Cell) -> Option<Instr>
    ensures { result ≡ set_in cell }
{
    Some(Instr::Set {
        to: ValueRegister::new(cell.x)?,
        number: cell.w.cast_signed(),
    })
}

#[tactic(auto, unfolding(crate::specs::Reading::copy_in))]
fn copy(cell: Cell) -> Option<Instr>
    ensures { result ≡ copy_in cell }
{
    Some(Instr::Copy {
        to: ValueRegister::new(cell.x)?,
        from: ValueRegister::new(cell.y)?,
    })
}

#[tactic(auto, unfolding(crate::specs::Reading::add_in))]
fn add(cell: Cell) -> Option<Instr>
    ensures { result ≡ add_in cell }
{
    Some(Instr::Add {
        to: ValueRegister::new(cell.x)?,
        left: ValueRegister::new(cell.y)?,
        right: ValueRegister::new(cell.z)?,
        otherwise: u16::try_from(cell.w).ok()?,
    })
}

#[tactic(auto, unfolding(crate::specs::Reading::subtract_in))]
fn subtract(cell: Cell) -> Option<Instr>
    ensures { result ≡ subtract_in cell }
{
    Some(Instr::Subtract {
        to: ValueRegister::new(cell.x)?,
        left: ValueRegister::new(cell.y)?,
        right: ValueRegister::new(cell.z)?,
        otherwise: u16::try_from(cell.w).ok()?,
    })
}

#[tactic(auto, unfolding(crate::specs::Reading::multiply_in))]
fn multiply(cell: Cell) -> Option<Instr>
    ensures { result ≡ multiply_in cell }
{
    Some(Instr::Multiply {
        to: ValueRegister::new(cell.x)?,
        left: ValueRegister::new(cell.y)?,
        right: ValueRegister::new(cell.z)?,
        otherwise: u16::try_from(cell.w).ok()?,
    })
}

#[tactic(auto, unfolding(crate::specs::Reading::divide_in))]
fn divide(cell: Cell) -> Option<Instr>
    ensures { result ≡ divide_in cell }
{
    Some(Instr::Divide {
        to: ValueRegister::new(cell.x)?,
        left: ValueRegister::new(cell.y)?,
        right: ValueRegister::new(cell.z)?,
        otherwise: u16::try_from(cell.w).ok()?,
    })
}

#[tactic(auto, unfolding(crate::specs::Reading::jump_in))]
fn jump(cell: Cell) -> Option<Instr>
    ensures { result ≡ jump_in cell }
{
    Some(Instr::Jump {
        target: u16::try_from(cell.w).ok()?,
    })
}

#[tactic(auto, unfolding(crate::specs::Reading::jump_if_less_in))]
fn jump_if_less(cell: Cell) -> Option<Instr>
    ensures { result ≡ jump_if_less_in cell }
{
    Some(Instr::JumpIfLess {
        left: ValueRegister::new(cell.x)?,
        right: ValueRegister::new(cell.y)?,
        target: u16::try_from(cell.w).ok()?,
    })
}

#[tactic(auto, unfolding(crate::specs::Reading::jump_if_equal_in))]
fn jump_if_equal(cell: Cell) -> Option<Instr>
    ensures { result ≡ jump_if_equal_in cell }
{
    Some(Instr::JumpIfEqual {
        left: ValueRegister::new(cell.x)?,
        right: ValueRegister::new(cell.y)?,
        target: u16::try_from(cell.w).ok()?,
    })
}

#[tactic(auto, unfolding(crate::specs::Reading::repeat_in))]
fn repeat(cell: Cell) -> Option<Instr>
    ensures { result ≡ repeat_in cell }
{
    Some(Instr::Repeat {
        count: u16::try_from(cell.w).ok()?,
    })
}

#[tactic(auto, unfolding(crate::specs::Reading::repeat_by_in))]
fn repeat_by(cell: Cell) -> Option<Instr>
    ensures { result ≡ repeat_by_in cell }
{
    Some(Instr::RepeatBy {
        turns: ValueRegister::new(cell.x)?,
        count: u16::try_from(cell.w).ok()?,
    })
}

#[tactic(auto, unfolding(crate::specs::Reading::first_in))]
fn first(cell: Cell) -> Option<Instr>
    ensures { result ≡ first_in cell }
{
    Some(Instr::First {
        to: NodeRegister::new(cell.x)?,
        number: ValueRegister::new(cell.y)?,
        otherwise: u16::try_from(cell.w).ok()?,
    })
}

#[tactic(auto, unfolding(crate::specs::Reading::child_in))]
fn child(cell: Cell) -> Option<Instr>
    ensures { result ≡ child_in cell }
{
    Some(Instr::Child {
        to: NodeRegister::new(cell.x)?,
        parent: NodeRegister::new(cell.y)?,
        number: ValueRegister::new(cell.z)?,
        otherwise: u16::try_from(cell.w).ok()?,
    })
}

#[tactic(auto, unfolding(crate::specs::Reading::move_in))]
fn move_node(cell: Cell) -> Option<Instr>
    ensures { result ≡ move_in cell }
{
    Some(Instr::Move {
        to: NodeRegister::new(cell.x)?,
        from: NodeRegister::new(cell.y)?,
    })
}

#[tactic(auto, unfolding(crate::specs::Reading::release_in))]
fn release(cell: Cell) -> Option<Instr>
    ensures { result ≡ release_in cell }
{
    Some(Instr::Release {
        node: NodeRegister::new(cell.x)?,
    })
}

#[tactic(auto, unfolding(crate::specs::Reading::get_in))]
fn get(cell: Cell) -> Option<Instr>
    ensures { result ≡ get_in cell }
{
    Some(Instr::Get {
        to: ValueRegister::new(cell.x)?,
        node: NodeRegister::new(cell.y)?,
        field: Field::new(cell.z)?,
    })
}

#[tactic(auto, unfolding(crate::specs::Reading::put_in))]
fn put(cell: Cell) -> Option<Instr>
    ensures { result ≡ put_in cell }
{
    Some(Instr::Put {
        node: NodeRegister::new(cell.x)?,
        field: Field::new(cell.y)?,
        from: ValueRegister::new(cell.z)?,
    })
}

#[tactic(auto, unfolding(crate::specs::Reading::kids_in))]
fn kids(cell: Cell) -> Option<Instr>
    ensures { result ≡ kids_in cell }
{
    Some(Instr::Kids {
        to: ValueRegister::new(cell.x)?,
        node: NodeRegister::new(cell.y)?,
    })
}

#[tactic(auto, unfolding(crate::specs::Reading::emit_in))]
fn emit(cell: Cell) -> Option<Instr>
    ensures { result ≡ emit_in cell }
{
    Some(Instr::Emit {
        from: ValueRegister::new(cell.x)?,
    })
}

/// The instruction that the opcode and the operands it uses stand for, if these are in range.
#[tactic(auto, unfolding(crate::specs::Reading::instr_in))]
fn named(cell: Cell) -> Option<Instr>
    ensures { result ≡ instr_in cell }
{
    match cell.opcode {
        1 => set(cell),
        2 => copy(cell),
        3 => add(cell),
        4 => subtract(cell),
        5 => multiply(cell),
        6 => divide(cell),
        7 => jump(cell),
        8 => jump_if_less(cell),
        9 => jump_if_equal(cell),
        10 => repeat(cell),
        11 => Some(Instr::End),
        12 => first(cell),
        13 => child(cell),
        14 => move_node(cell),
        15 => release(cell),
        16 => get(cell),
        17 => put(cell),
        18 => kids(cell),
        19 => emit(cell),
        20 => Some(Instr::Return),
        21 => repeat_by(cell),
        _ => None,
    }
}

/// The opcodes of the first version, which each version has.
const OPCODES: [u8; 20] = [
    1, 2, 3, 4, 5, 6, 7, 8, 9, 10, 11, 12, 13, 14, 15, 16, 17, 18, 19, 20,
];

/// Whether an instruction of the version has the opcode.
pub fn is_opcode(version: Version, opcode: u8) -> bool
    ensures { IsTrue result ↔ IsOpcode version opcode }
{
    match version {
        Version::One => OPCODES.contains(&opcode),
        Version::Two => opcode == 21 || OPCODES.contains(&opcode),
    }
}

/// The instruction that the cell encodes in a code of that version with `count` instructions.
pub fn instr_of(cell: Cell, version: Version, count: u16) -> Option<Instr>
    ensures { MatchOption result ((i : Instr) → IsInstr version count i → cell_of i ≢ cell)
        (λ i. IsInstr version count i × (cell_of i ≡ cell)) }
{
    let instr = named(cell)?;
    // An operand that the instruction doesn't use is 0 in its own cell.
    if instr.cell() != cell {
        return None;
    }
    if instr.target().is_some_and(|target| target > count) {
        return None;
    }
    if !instr.is_in(version) {
        return None;
    }
    Some(instr)
}
