//! What holds for every text.

ghost use Rattle.std.specs.Prelude.{◌≡◌, ℕ, ◌<◌, ◌≤◌, None, Some, List, [], Bool, true, false, length, is_some};
ghost use Rattle.std.specs.Prelude.{ℤ};
ghost use Rattle.tl_instr.specs.declared.instr.Instr.{Instr};
ghost use Rattle.tl_instr.specs.declared.operand.TheConstants.{VALUE_REGISTERS, NODE_REGISTERS};
ghost use Rattle.tl_tree.specs.Records.{Records};
ghost use Rattle.tl_machine.specs.Runs.{State};
ghost use Rattle.tl_machine.specs.Left.{Frame};
ghost use Rattle.tl_machine.specs.Alone.{fitting, node, start};
ghost use Rattle.tl_lowering.specs.declared.program.Condition.{Condition};
ghost use Rattle.tl_lowering.specs.declared.program.Expression.{Expression};
ghost use Rattle.tl_lowering.specs.declared.program.Statement.{Statement};
ghost use Rattle.tl_compiler.specs.Aiming.{at_positions};
ghost use Rattle.tl_compiler.specs.Numbers.{into_code, branch_code};
ghost use Rattle.tl_lowering.specs.Outcomes.{after, fails, breaks};
ghost use Rattle.tl_lowering.specs.Sets.{Nodes, none_held};
ghost use Rattle.tl_compiler.specs.Statements.{Site, statement_code, procedure_code};
ghost use Rattle.tl_meaning.specs.Calls.{DoesCall, WritesNothing};
ghost use Rattle.tl_meaning.specs.Endings.{Mirrors, IsSite, StatementLeads};
ghost use Rattle.tl_compiler.specs.Tails.{Tail};
ghost use Rattle.tl_meaning.specs.Leading.{Runs, from_label, IsInside, NumberLeads, ConditionLeads};
ghost use Rattle.tl_lowering.specs.Sound.{IsReadable, IsTestable};
ghost use Rattle.tl_meaning.specs.Meaning.{is_on, Fails, behaviour, call, number, truth, held_at};
ghost use Rattle.tl_lowering.specs.Sound.{IsWellFormed};
ghost use Rattle.tl_lowering.specs.Names.{Names};
ghost use Rattle.tl_lowering.specs.Fit.{AllTurn};
ghost use Rattle.tl_lowering.specs.Naming.{AreWritten, IsLiteral};
ghost use Rattle.tl_lowering.specs.Reading.{IsBody};
ghost use Rattle.tl_lowering.specs.declared.program.Statement.TheVariants.{Skip};
ghost use Rattle.tl_syntax.specs.declared.parsed.Declaration.{Declaration};
ghost use Rattle.tl_syntax.specs.declared.parsed.Procedure.{Procedure as TextProcedure};
ghost use Rattle.tl_syntax.specs.declared.parsed.Write.{Write};

use tl_verify::Proc;

/// A call that returns or fails holds no node afterwards, whatever it held.
pub fn all_is_freed()
    ensures { (parents : List ℕ) (body : Statement) (args : List ℤ) (t : Records) (n : ℕ) → n < NODE_REGISTERS → is_on (behaviour parents body (start args t)).outcome ≡ false → node (call parents body args t).state n ≡ None }
{}

/// The code of a number, run from any state, puts the number that the text means into its register and goes on after
/// itself. If the text's number fails, it goes to the label of the failure. It locks, writes, frees and emits nothing, and
/// changes only its register and free ones.
pub fn numbers()
    ensures { (code : List Instr) (parents : List ℕ) (frames : List Frame) (e : Expression) (x t failure : ℕ) (rest : List Instr) (s : State) → Runs code → Tail code (into_code e x t failure rest) → failure ≤ length rest → IsInside code frames (length rest) → IsReadable t (held_at s) e → length s.values ≡ VALUE_REGISTERS → NumberLeads code parents frames x t failure (length rest) (from_label code parents frames (length (into_code e x t failure rest)) s) s (number parents e s) }
{}

/// What is computed for a written number of at most 64 bits is this number, in every state: it doesn't fail.
pub fn literals()
    ensures { (parents : List ℕ) (w : ℤ) (e : Expression) (s : State) → IsLiteral w e → fitting w ≡ Some w → number parents e s ≡ Some w }
{}

/// The code of a condition, run from any state, goes to its label if the condition is as wanted, and otherwise on. If the
/// condition fails, it goes to the label of the failure. It locks, writes, frees and emits nothing, and changes only free
/// registers.
pub fn conditions()
    ensures { (code : List Instr) (parents : List ℕ) (frames : List Frame) (d : Condition) (sense : Bool) (label t failure : ℕ) (rest : List Instr) (s : State) → Runs code → Tail code (branch_code d sense label t failure rest) → failure ≤ length rest → label ≤ length rest → IsInside code frames (length rest) → IsTestable t (held_at s) d → length s.values ≡ VALUE_REGISTERS → ConditionLeads code parents frames sense label t failure (length rest) (from_label code parents frames (length (branch_code d sense label t failure rest)) s) s (truth parents d s) }
{}

/// The code of a statement, run from a state that agrees with the text's, does what the statement means: the same locks,
/// writes, frees and emitted values in the same order. Control then goes on after it, to the pad of what is held, out of
/// the loop around, or to the end of the call, as the statement ends, with the text's state; and what is held there is what
/// was known of the statement before.
pub fn statements()
    ensures { (code : List Instr) (parents : List ℕ) (frames : List Frame) (a : Statement) (held : Nodes) (x : Site) (rest : List Instr) (s u : State) → Runs code → Tail code (statement_code a held x rest) → IsSite code frames x (length rest) → IsWellFormed a x.values x.nodes held (is_some x.exit) → Mirrors x.values held s u → StatementLeads (after a held) (fails a held) (breaks a held) code parents frames x (length rest) (from_label code parents frames (length (statement_code a held x rest)) u) (behaviour parents a s) }
{}

/// Several writes in one statement that fail have done nothing, wherever the statement is well-formed: all numbers are
/// computed before the first field is written.
pub fn several_writes()
    ensures { (names : Names) (t : ℕ) (writes : List Write) (whole : Statement) (m : ℕ) (in_loop : Bool) (parents : List ℕ) (s : State) → AreWritten names t writes Skip whole → IsWellFormed whole t m (held_at s) in_loop → (behaviour parents whole s).outcome ≡ Fails → (behaviour parents whole s).events ≡ [] }
{}

/// The code of a procedure, run alone on a tree of any shape, does what a call of its text does: the same locks, writes,
/// frees and emitted values in the same order, and the same final records. Its text handles each failure, as every text
/// that was read does.
pub fn calls()
    ensures { (arity : ℕ) (parents : List ℕ) (body : Statement) (args : List ℤ) (t : Records) → Runs (procedure_code arity body) → IsWellFormed body arity 0 none_held false → fails body none_held ≡ [] → length args ≤ VALUE_REGISTERS → DoesCall (at_positions (procedure_code arity body)) parents body args t }
{}

/// A call of an atomic procedure has written nothing when its body fails and control goes to its `else`; nor has it when
/// the `else` fails too, which ends the call.
pub fn writes_nothing()
    ensures { (before : List Declaration) (names : Names) (text : TextProcedure) (whole : Statement) (arity : ℕ) (parents : List ℕ) (args : List ℤ) (t : Records) (read : IsBody before names text whole) → text.is_atomic ≡ true → IsWellFormed whole arity 0 none_held false → AllTurn whole → WritesNothing parents read.body args t × WritesNothing parents read.handled args t }
{}

/// A procedure that the verifier accepted, and that has the code of a text, does what a call of the text does: the same locks, writes,
/// frees and emitted values in the same order, and the same records in the end, on a tree of any shape.
pub fn procedures(procedure: &Proc)
    ensures { (arity : ℕ) (parents : List ℕ) (body : Statement) (args : List ℤ) (t : Records) → procedure.now.instrs ≡ at_positions (procedure_code arity body) → IsWellFormed body arity 0 none_held false → fails body none_held ≡ [] → length args ≤ VALUE_REGISTERS → DoesCall procedure.now.instrs parents body args t }
{
    // Its code was accepted.
    let _fact = procedure.code();
}
