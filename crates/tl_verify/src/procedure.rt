// Procedures: accepted codes.

ghost use Rattle.std.specs.Prelude.{◌≡◌, ◌≢◌, ◌↔◌, IsTrue, IfOk, IfErr, length};
ghost use Rattle.tl_instr.specs.Codes.{CodeValue, IsCode};
ghost use Rattle.tl_budget.specs.Nested.{IsNest};
ghost use Rattle.tl_budget.specs.Loops.{budget, lock_bound, emit_bound};
ghost use Rattle.tl_verify.specs.Acceptable.{Acceptable};
ghost use Rattle.tl_verify.specs.Findings.{IsFirstFault};
ghost use Rattle.tl_verify.specs.Procedure.{AreBounds};
ghost use Rattle.tl_verify.specs.declared.fault.VerifyFault.TheVariants as fault;

use crate::fault::VerifyFault;
use crate::jumps::jumps;
use crate::registers::registers;
use std::alloc::Global;
use std::marker::Model;
use tl_budget::{Bounds, Nest, bounds, nest};
use tl_instr::Code;

/// An accepted code, with its loops and its bounds. Only `verify` makes one.
#[derive(Debug, Drop)]
pub struct Proc {
    code: Code,
    nest: Nest,
    bounds: Bounds,
}

impl Model for Proc {
    ghost use Rattle.tl_instr.specs.Codes.{CodeValue};
    ghost use Rattle.tl_verify.specs.Procedure.{IsProc};

    ghost Value = { CodeValue };

    ghost view = { λ p. p.code };

    ghost invariant = { λ p. IsProc p.code p.nest p.bounds };
}

impl Proc {
    pub fn code(&self) -> &Code
        ensures value { result.now ≡ self.now }
        ensures accepted { Acceptable self.now.instrs }
        ensures valid { IsCode self.now }
    {
        &self.code
    }

    /// The loops of the code.
    pub fn nest(&self) -> &Nest
        ensures { IsNest self.now.instrs result.now }
    {
        &self.nest
    }

    /// The most that a call does.
    pub fn bounds(&self) -> Bounds
        ensures { AreBounds self.now.instrs result }
    {
        self.bounds
    }

    /// Whether there are as many arguments as the procedure takes.
    pub fn takes(&self, args: &[i64]) -> bool
        ensures { IsTrue result ↔ (length args.now ≡ self.now.arity) }
    {
        args.len() == usize::from(self.code.arity().number())
    }

    /// Whether both are made of the same code. Their loops and bounds are then the same.
    pub fn is(&self, other: &Proc) -> bool
        ensures { IsTrue result ↔ (self.now ≡ other.now) }
    {
        self.code.is(&other.code)
    }
}

// The loops and the bounds of an accepted code, or its first fault.
fn examine(alloc: Global, code: &Code) -> Result<(Nest, Bounds), VerifyFault>
    ensures accepted { IfOk result (λ _. Acceptable code.now.instrs) }
    ensures nest { IfOk result (λ r. IsNest code.now.instrs r.0) }
    ensures bounds { IfOk result (λ r. AreBounds code.now.instrs r.1) }
    ensures fault { IfErr result (λ f. f ≢ fault.Memory → IsFirstFault code.now.instrs f) }
{
    let loops = nest(alloc, code)?;
    if let Some(fault) = jumps(code.instrs(), &loops) {
        return Err(fault);
    }
    if let Some(fault) = registers(alloc, code.instrs(), &loops)? {
        return Err(fault);
    }
    let sums = bounds(code, &loops)?;
    Ok((loops, sums))
}

/// Accepts a code: from then on it can't fail, whatever its arguments and the tree.
///
/// A code is accepted if its loops match and nest at most four deep, its jumps go forward, stay in the code and enter no
/// loop, its registers fit, and its bounds are within the limits: 1,000,000 instructions, 4,096 locks, 32 emitted values.
/// Otherwise the code is handed back with the first fault of the first pass that finds one:
///
/// - loops: 302, 304, 303 at the least position, and only if there is none of these, 301;
/// - targets: 401, 403, 402 at the least position;
/// - registers: 408, 404, 405, 406, 407, 409, 403 at the least position that control may reach;
/// - bounds: 305, 306, 307.
///
/// 490 if memory is refused.
pub fn verify(alloc: Global, code: Code) -> Result<Proc, (Code, VerifyFault)>
    ensures value { IfOk result (λ p. p ≡ code) }
    ensures accepted { IfOk result (λ _. Acceptable code.instrs) }
    ensures accepts { Acceptable code.instrs → IfErr result (λ e. e.1 ≡ fault.Memory) }
    ensures handed_back { IfErr result (λ e. e.0 ≡ code) }
    ensures fault { IfErr result (λ e. e.1 ≢ fault.Memory → IsFirstFault code.instrs e.1) }
{
    match examine(alloc, &code) {
        Ok((nest, bounds)) => Ok(Proc { code, nest, bounds }),
        Err(fault) => Err((code, fault)),
    }
}
