// The theory of faults: what holds for every code.

ghost use Rattle.std.specs.Prelude.{◌≡◌, List};
ghost use Rattle.tl_instr.specs.declared.instr.Instr.{Instr as Instr'};
ghost use Rattle.tl_verify.specs.declared.fault.VerifyFault.{VerifyFault as VerifyFault'};
ghost use Rattle.tl_verify.specs.Acceptable.{Acceptable};
ghost use Rattle.tl_verify.specs.Findings.{IsFirstFault};

/// An acceptable code has no first fault, and no code has two.
pub fn first_faults()
    ensures none { (code : List Instr') (f : VerifyFault') → Acceptable code → IsFirstFault code f → ⊥ }
    ensures one { (code : List Instr') (f g : VerifyFault') → IsFirstFault code f → IsFirstFault code g → f ≡ g }
{}
