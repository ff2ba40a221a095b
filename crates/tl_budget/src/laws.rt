// The theory of loops and their faults: what holds for every code.

ghost use Rattle.std.specs.Prelude.{◌≡◌, ◌⊎◌, ◌↔◌, ◌<◌, ℕ, List, Some};
ghost use Rattle.std.specs.List.{Contains};
ghost use Rattle.tl_instr.specs.declared.instr.Instr.{Instr as Instr'};
ghost use Rattle.tl_budget.specs.declared.fault.NestFault.{NestFault as NestFault'};
ghost use Rattle.tl_budget.specs.Costs.{weight_from};
ghost use Rattle.tl_budget.specs.Findings.{IsFirstFault};
ghost use Rattle.tl_budget.specs.Loops.{Loop, Closes, kind_at, loop_at, around, IsAround, weight};
ghost use Rattle.tl_budget.specs.Nested.{IsNested};

/// For each code, either its loops nest or it has exactly one first fault.
pub fn first_faults()
    ensures some { (code : List Instr') → IsNested code ⊎ ((f : NestFault') × IsFirstFault code f) }
    ensures none { (code : List Instr') (f : NestFault') → IsNested code → IsFirstFault code f → ⊥ }
    ensures one { (code : List Instr') (f g : NestFault') → IsFirstFault code f → IsFirstFault code g → f ≡ g }
{}

/// The definitions of loops agree with each other. The loop that opens at a position ends at a later `end`. The loops
/// listed around a position are those that open before it and don't end before it. Of any two loops, either one is inside
/// the other or they are disjoint. A weight is the same product of turn counts, taken from the inside or from the outside.
pub fn loops()
    ensures close { (code : List Instr') (o : ℕ) (l : Loop) → loop_at code o ≡ Some l → (l.opening ≡ o) × (o < l.close) × (kind_at code l.close ≡ Some Closes) }
    ensures listed { (code : List Instr') (p : ℕ) (l : Loop) → Contains (around code p) l ↔ IsAround code l.opening l p }
    ensures nested { (code : List Instr') (o p : ℕ) (l k : Loop) → loop_at code o ≡ Some l → loop_at code p ≡ Some k → o < p
        → (k.close < l.close) ⊎ (l.close < p) }
    ensures weighed { (code : List Instr') (p : ℕ) → weight code p ≡ weight_from code 0 p }
{}
