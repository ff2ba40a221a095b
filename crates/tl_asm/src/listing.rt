//! The canonical text of a code.

ghost use Rattle.std.specs.Prelude.{◌≡◌, ◌∷◌, [], codes, decimal, IfOk, IfErr};
ghost use Rattle.std.specs.Fmt.{signed_decimal};
ghost use Rattle.std.specs.String.{string_bytes};
ghost use Rattle.tl_asm.specs.Texts.{Written};
ghost use Rattle.tl_asm.specs.Listing.{line_of, value_word, node_word, label_word, instr_line, label_line, is_target, header_lines, listing};

use crate::fault::AsmFault;
use std::alloc::Global;
use tl_instr::{Code, Field, Instr, NodeRegister, ValueRegister, Version};

/// Whether control may go to this position.
fn is_target(instrs: &[Instr], position: u16) -> bool
    ensures { result ≡ is_target instrs.now position }
{
    instrs.iter().any(|instr| instr.target() == Some(position))
}

// The line of `add`, `sub`, `mul` or `div`.
fn arithmetic_line(
    alloc: Global,
    name: &str,
    to: ValueRegister,
    left: ValueRegister,
    right: ValueRegister,
    otherwise: u16,
) -> Result<String, AsmFault>
    ensures line { IfOk result (λ line. string_bytes line ≡ line_of (name.now ∷ value_word to ∷ value_word left ∷ value_word right ∷ codes "else" ∷ label_word otherwise ∷ [])) }
    ensures memory { IfErr result (λ f. f ≡ AsmFault.Memory) }
{
    Ok(format!(in alloc;
        "{name} v{} v{} v{} else L{otherwise}\n",
        to.number(),
        left.number(),
        right.number()
    )?)
}

// The line of `jlt` or `jeq`.
fn comparison_line(
    alloc: Global,
    name: &str,
    left: ValueRegister,
    right: ValueRegister,
    target: u16,
) -> Result<String, AsmFault>
    ensures line { IfOk result (λ line. string_bytes line ≡ line_of (name.now ∷ value_word left ∷ value_word right ∷ label_word target ∷ [])) }
    ensures memory { IfErr result (λ f. f ≡ AsmFault.Memory) }
{
    Ok(format!(in alloc; "{name} v{} v{} L{target}\n", left.number(), right.number())?)
}

fn set_line(alloc: Global, to: ValueRegister, number: i32) -> Result<String, AsmFault>
    ensures line { IfOk result (λ line. string_bytes line ≡ line_of (codes "set" ∷ value_word to ∷ signed_decimal number ∷ [])) }
    ensures memory { IfErr result (λ f. f ≡ AsmFault.Memory) }
{
    Ok(format!(in alloc; "set v{} {number}\n", to.number())?)
}

fn copy_line(alloc: Global, to: ValueRegister, from: ValueRegister) -> Result<String, AsmFault>
    ensures line { IfOk result (λ line. string_bytes line ≡ line_of (codes "copy" ∷ value_word to ∷ value_word from ∷ [])) }
    ensures memory { IfErr result (λ f. f ≡ AsmFault.Memory) }
{
    Ok(format!(in alloc; "copy v{} v{}\n", to.number(), from.number())?)
}

fn first_line(
    alloc: Global,
    to: NodeRegister,
    number: ValueRegister,
    otherwise: u16,
) -> Result<String, AsmFault>
    ensures line { IfOk result (λ line. string_bytes line ≡ line_of (codes "first" ∷ node_word to ∷ value_word number ∷ codes "else" ∷ label_word otherwise ∷ [])) }
    ensures memory { IfErr result (λ f. f ≡ AsmFault.Memory) }
{
    Ok(format!(in alloc;
        "first n{} v{} else L{otherwise}\n",
        to.number(),
        number.number()
    )?)
}

fn child_line(
    alloc: Global,
    to: NodeRegister,
    parent: NodeRegister,
    number: ValueRegister,
    otherwise: u16,
) -> Result<String, AsmFault>
    ensures line { IfOk result (λ line. string_bytes line ≡ line_of (codes "child" ∷ node_word to ∷ node_word parent ∷ value_word number ∷ codes "else" ∷ label_word otherwise ∷ [])) }
    ensures memory { IfErr result (λ f. f ≡ AsmFault.Memory) }
{
    Ok(format!(in alloc;
        "child n{} n{} v{} else L{otherwise}\n",
        to.number(),
        parent.number(),
        number.number()
    )?)
}

fn move_line(alloc: Global, to: NodeRegister, from: NodeRegister) -> Result<String, AsmFault>
    ensures line { IfOk result (λ line. string_bytes line ≡ line_of (codes "move" ∷ node_word to ∷ node_word from ∷ [])) }
    ensures memory { IfErr result (λ f. f ≡ AsmFault.Memory) }
{
    Ok(format!(in alloc; "move n{} n{}\n", to.number(), from.number())?)
}

fn get_line(
    alloc: Global,
    to: ValueRegister,
    node: NodeRegister,
    field: Field,
) -> Result<String, AsmFault>
    ensures line { IfOk result (λ line. string_bytes line ≡ line_of (codes "get" ∷ value_word to ∷ node_word node ∷ decimal field ∷ [])) }
    ensures memory { IfErr result (λ f. f ≡ AsmFault.Memory) }
{
    Ok(format!(in alloc;
        "get v{} n{} {}\n",
        to.number(),
        node.number(),
        field.number()
    )?)
}

fn put_line(
    alloc: Global,
    node: NodeRegister,
    field: Field,
    from: ValueRegister,
) -> Result<String, AsmFault>
    ensures line { IfOk result (λ line. string_bytes line ≡ line_of (codes "put" ∷ node_word node ∷ decimal field ∷ value_word from ∷ [])) }
    ensures memory { IfErr result (λ f. f ≡ AsmFault.Memory) }
{
    Ok(format!(in alloc;
        "put n{} {} v{}\n",
        node.number(),
        field.number(),
        from.number()
    )?)
}

fn kids_line(alloc: Global, to: ValueRegister, node: NodeRegister) -> Result<String, AsmFault>
    ensures line { IfOk result (λ line. string_bytes line ≡ line_of (codes "kids" ∷ value_word to ∷ node_word node ∷ [])) }
    ensures memory { IfErr result (λ f. f ≡ AsmFault.Memory) }
{
    Ok(format!(in alloc; "kids v{} n{}\n", to.number(), node.number())?)
}

/// The instruction's line.
fn instr_line(alloc: Global, instr: &Instr) -> Result<String, AsmFault>
    ensures line { IfOk result (λ line. string_bytes line ≡ instr_line instr.now) }
    ensures memory { IfErr result (λ f. f ≡ AsmFault.Memory) }
{
    match *instr {
        Instr::Set { to, number } => set_line(alloc, to, number),
        Instr::Copy { to, from } => copy_line(alloc, to, from),
        Instr::Add {
            to,
            left,
            right,
            otherwise,
        } => arithmetic_line(alloc, "add", to, left, right, otherwise),
        Instr::Subtract {
            to,
            left,
            right,
            otherwise,
        } => arithmetic_line(alloc, "sub", to, left, right, otherwise),
        Instr::Multiply {
            to,
            left,
            right,
            otherwise,
        } => arithmetic_line(alloc, "mul", to, left, right, otherwise),
        Instr::Divide {
            to,
            left,
            right,
            otherwise,
        } => arithmetic_line(alloc, "div", to, left, right, otherwise),
        Instr::Jump { target } => Ok(format!(in alloc; "jmp L{target}\n")?),
        Instr::JumpIfLess {
            left,
            right,
            target,
        } => comparison_line(alloc, "jlt", left, right, target),
        Instr::JumpIfEqual {
            left,
            right,
            target,
        } => comparison_line(alloc, "jeq", left, right, target),
        Instr::Repeat { count } => Ok(format!(in alloc; "rep {count}\n")?),
        Instr::RepeatBy { turns, count } => {
            Ok(format!(in alloc; "repv v{} {count}\n", turns.number())?)
        }
        Instr::End => Ok(format!(in alloc; "end\n")?),
        Instr::First {
            to,
            number,
            otherwise,
        } => first_line(alloc, to, number, otherwise),
        Instr::Child {
            to,
            parent,
            number,
            otherwise,
        } => child_line(alloc, to, parent, number, otherwise),
        Instr::Move { to, from } => move_line(alloc, to, from),
        Instr::Release { node } => Ok(format!(in alloc; "rel n{}\n", node.number())?),
        Instr::Get { to, node, field } => get_line(alloc, to, node, field),
        Instr::Put { node, field, from } => put_line(alloc, node, field, from),
        Instr::Kids { to, node } => kids_line(alloc, to, node),
        Instr::Emit { from } => Ok(format!(in alloc; "emit v{}\n", from.number())?),
        Instr::Return => Ok(format!(in alloc; "ret\n")?),
    }
}

/// The label line of a position that is a target; empty for any other position.
fn label_line(alloc: Global, instrs: &[Instr], position: u16) -> Result<String, AsmFault>
    ensures line { IfOk result (λ line. string_bytes line ≡ label_line instrs.now position) }
    ensures memory { IfErr result (λ f. f ≡ AsmFault.Memory) }
{
    if is_target(instrs, position) {
        Ok(format!(in alloc; "L{position}:\n")?)
    } else {
        Ok(String::new(alloc))
    }
}

/// What comes before the instructions: the version, if it isn't the first, and the arity.
fn header(alloc: Global, code: &Code) -> Result<String, AsmFault>
    ensures lines { IfOk result (λ lines. string_bytes lines ≡ header_lines code.now.version code.now.arity) }
    ensures memory { IfErr result (λ f. f ≡ AsmFault.Memory) }
{
    let arity = code.arity().number();
    match code.version() {
        Version::One => Ok(format!(in alloc; "arity {arity}\n")?),
        Version::Two => Ok(format!(in alloc; "version 2\narity {arity}\n")?),
    }
}

/// The canonical text of the code: its version if that is the second, its arity, and its instructions, one per line. A
/// label, `L` and the position, has a line of its own before each instruction that is a target, and after the last
/// instruction if the end is a target.
///
/// 290 if memory is refused.
pub fn disassemble(alloc: Global, code: &Code) -> Result<String, AsmFault>
    ensures text { IfOk result (λ text. string_bytes text ≡ listing code.now) }
    ensures written { IfOk result (λ text. Written (string_bytes text) code.now) }
    ensures memory { IfErr result (λ f. f ≡ AsmFault.Memory) }
{
    let instrs = code.instrs();
    let mut text = header(alloc, code)?;
    for position in 0..code.count() {
        text.push_str(&label_line(alloc, instrs, position)?)?;
        text.push_str(&instr_line(alloc, &instrs[usize::from(position)])?)?;
    }
    text.push_str(&label_line(alloc, instrs, code.count())?)?;
    Ok(text)
}
