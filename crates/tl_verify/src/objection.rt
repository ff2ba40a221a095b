// What an instruction requires of the node registers.

ghost use Rattle.std.specs.Prelude.{◌≡◌, ◌<◌, get_or, true, false, Option, Some, None, IfOk, IfErr, option_map};
ghost use Rattle.tl_verify.specs.Marks.{goes_on as goes_on_from, after as marks_after};
ghost use Rattle.tl_verify.specs.Findings.{Finding, fault_of};
ghost use Rattle.tl_verify.specs.Pass.{of_registers, is_end as is_end_of, objection as objection_at};
ghost use Rattle.tl_verify.specs.declared.fault.VerifyFault.TheVariants as fault;

use crate::arrivals::Arrivals;
use crate::fault::VerifyFault;
use crate::marks::Marks;
use crate::register_set::RegisterSet;
use tl_instr::{Instr, NodeRegister};

/// Whether control may go to the next position.
pub fn goes_on(instr: &Instr) -> bool
    ensures { result ≡ goes_on_from instr.now }
{
    !matches!(*instr, Instr::Jump { .. } | Instr::Return)
}

/// Whether the instruction ends a turn of a loop.
pub fn is_end(instr: &Instr) -> bool
    ensures { result ≡ is_end_of instr.now }
{
    matches!(*instr, Instr::End)
}

// The register must hold a node.
#[inline(always)]
fn needs(position: u16, held: RegisterSet, register: NodeRegister) -> Result<(), VerifyFault>
    ensures ok { IfOk result (λ _. get_or held register false ≡ true) }
    ensures fault { IfErr result (λ f. (get_or held register false ≡ false) × (f ≡ fault.NotHeld position register)) }
{
    if held.has(register) {
        Ok(())
    } else {
        Err(VerifyFault::NotHeld(position, register.number()))
    }
}

// The register takes a node, and must be empty before.
#[inline(always)]
fn takes(position: u16, held: RegisterSet, register: NodeRegister) -> Result<(), VerifyFault>
    ensures ok { IfOk result (λ _. get_or held register false ≡ false) }
    ensures fault { IfErr result (λ f. (get_or held register false ≡ true) × (f ≡ fault.Occupied position register)) }
{
    if held.has(register) {
        Err(VerifyFault::Occupied(position, register.number()))
    } else {
        Ok(())
    }
}

// The marks after an instruction that doesn't go to its target, or what is wrong with the registers before it.
#[inline(always)]
fn after(position: u16, instr: &Instr, marks: Marks) -> Result<Marks, VerifyFault>
    ensures after { IfOk result (λ m. m ≡ marks_after instr.now marks) }
    ensures ok { IfOk result (λ _. (rest : Option Finding) → of_registers position instr.now marks rest ≡ rest) }
    ensures fault { IfErr result (λ f. (rest : Option Finding) → Some f ≡ option_map fault_of (of_registers position instr.now marks rest)) }
{
    let Marks { held, is_open } = marks;
    match *instr {
        Instr::First { to, .. } => {
            if !is_open {
                return Err(VerifyFault::FirstSpent(position));
            }
            takes(position, held, to)?;
            Ok(Marks {
                held: held.with(to),
                is_open: false,
            })
        }
        Instr::Child { to, parent, .. } => {
            needs(position, held, parent)?;
            takes(position, held, to)?;
            Ok(Marks {
                held: held.with(to),
                is_open,
            })
        }
        Instr::Move { to, from } => {
            needs(position, held, from)?;
            takes(position, held, to)?;
            Ok(Marks {
                held: held.without(from).with(to),
                is_open,
            })
        }
        Instr::Release { node } => {
            needs(position, held, node)?;
            Ok(Marks {
                held: held.without(node),
                is_open,
            })
        }
        Instr::Get { node, .. } | Instr::Put { node, .. } | Instr::Kids { node, .. } => {
            needs(position, held, node)?;
            Ok(marks)
        }
        Instr::Return => match held.first() {
            Some(register) => Err(VerifyFault::HeldAtReturn(position, register)),
            None => Ok(marks),
        },
        _ => Ok(marks),
    }
}

/// The marks after the instruction at `position` in a code of `count` instructions, or the first fault there. Control may
/// go on to the position after `furthest`. `is_changed`: a turn of the loop that ends here changes the marks.
#[inline(always)]
#[tactic(auto, unfolding(crate::specs::Pass::objection))]
pub fn objection(
    count: u16,
    furthest: u16,
    position: u16,
    instr: &Instr,
    arrivals: Arrivals,
    is_changed: bool,
) -> Result<Marks, VerifyFault>
    requires { 0 < count }
    ensures after { IfOk result (λ m. m ≡ marks_after instr.now arrivals.marks) }
    ensures ok { IfOk result (λ _. None ≡ option_map fault_of (objection_at count furthest position instr.now arrivals is_changed)) }
    ensures fault { IfErr result (λ f. Some f ≡ option_map fault_of (objection_at count furthest position instr.now arrivals is_changed)) }
{
    if arrivals.differ {
        return Err(VerifyFault::Joins(position));
    }
    let behind = after(position, instr, arrivals.marks)?;
    if is_changed {
        return Err(VerifyFault::LoopChanges(position));
    }
    if goes_on(instr) && count - 1 <= furthest {
        return Err(VerifyFault::OffEnd(position));
    }
    Ok(behind)
}
