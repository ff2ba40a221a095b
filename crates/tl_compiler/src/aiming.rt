// From labels, which count from the end of a code, to positions, which count from its start.

ghost use Rattle.std.specs.Prelude.{◌≡◌, ◌-◌};
ghost use Rattle.tl_compiler.specs.Aiming.{aimed};
ghost use Rattle.tl_instr.specs.Instructions.{InRange};

use tl_instr::Instr;

// The position of a label in a code of `count` instructions.
fn position(label: u16, count: u16) -> u16
    ensures { result ≡ count - label }
{
    count.saturating_sub(label)
}

/// The instruction, with a position in place of its label.
pub fn aimed(instr: &Instr, count: u16) -> Instr
    ensures { result ≡ aimed count instr.now }
{
    match instr.target() {
        Some(label) => instr.with_target(position(label, count)),
        None => *instr,
    }
}

/// The operands of an instruction are in range, by their types.
pub fn lemma_in_range(instr: &Instr)
    ensures { InRange instr.now }
{
    match *instr {
        Instr::Set { to, number } => {
            let _fact = (to.number(), number);
        }
        Instr::Copy { to, from } => {
            let _fact = (to.number(), from.number());
        }
        Instr::Add {
            to,
            left,
            right,
            ..
        }
        | Instr::Subtract {
            to,
            left,
            right,
            ..
        }
        | Instr::Multiply {
            to,
            left,
            right,
            ..
        }
        | Instr::Divide {
            to,
            left,
            right,
            ..
        } => {
            let _fact = (to.number(), left.number(), right.number());
        }
        Instr::JumpIfLess { left, right, .. } | Instr::JumpIfEqual { left, right, .. } => {
            let _fact = (left.number(), right.number());
        }
        Instr::Repeat { count } => {
            let _fact = count;
        }
        Instr::RepeatBy { turns, count } => {
            let _fact = count;
            let _fact = turns.number();
        }
        Instr::First { to, number, .. } => {
            let _fact = (to.number(), number.number());
        }
        Instr::Child {
            to,
            parent,
            number,
            ..
        } => {
            let _fact = (to.number(), parent.number(), number.number());
        }
        Instr::Move { to, from } => {
            let _fact = (to.number(), from.number());
        }
        Instr::Release { node } => {
            let _fact = node.number();
        }
        Instr::Get { to, node, field } => {
            let _fact = (to.number(), node.number(), field.number());
        }
        Instr::Put { node, field, from } => {
            let _fact = (node.number(), field.number(), from.number());
        }
        Instr::Kids { to, node } => {
            let _fact = (to.number(), node.number());
        }
        Instr::Emit { from } => {
            let _fact = from.number();
        }
        Instr::Jump { .. } | Instr::End | Instr::Return => {}
    }
}
