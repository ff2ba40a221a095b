// From a text to its procedures.

ghost use Rattle.std.specs.Prelude.{◌≡◌, ◌≢◌, ◌<◌, ◌≤◌, Some, None, option_map, IfOk, IfErr, MatchOption, MatchResult, string_bytes, vec_len};
ghost use Rattle.std.specs.List.{All};
ghost use Rattle.tl_instr.specs.Instructions.{InRange};
ghost use Rattle.tl_instr.specs.declared.operand.TheConstants.{MAX_ARGS};
ghost use Rattle.tl_instr.specs.declared.version.Version.TheVariants.{Two};
ghost use Rattle.tl_verify.specs.Findings.{IsFirstFault};
ghost use Rattle.tl_verify.specs.declared.fault.VerifyFault.TheVariants as verify_fault;
ghost use Rattle.tl_lowering.specs.Fit.{IsWord};
ghost use Rattle.tl_compiler.specs.Rooms.{IsReady};
ghost use Rattle.tl_compiler.specs.Safe.{IsSafe};
ghost use Rattle.tl_compiler.specs.Aiming.{at_positions};
ghost use Rattle.tl_compiler.specs.Compiled.{IsCompiled, AreCompiled, Compiles, IsMeant, made_name};
ghost use Rattle.tl_compiler.specs.Contexts.{code_of};
ghost use Rattle.tl_compiler.specs.Faults.{IsExcess, IsVerifierFault, IsCodeFault, IsCodesFault, IsCompileFault};
ghost use Rattle.tl_compiler.specs.declared.compiler.Compiled.{Compiled};
ghost use Rattle.tl_compiler.specs.declared.fault.CompileFault.TheVariants.{NotOne};
ghost use Rattle.tl_compiler.specs.Statements.{procedure_code};

use crate::aiming::{aimed, lemma_in_range};
use crate::context::{Context, Pads};
use crate::costs::heaviest;
use crate::draft::Draft;
use crate::fault::{CompileFault, Excess};
use crate::node_set::NodeSet;
use std::alloc::{AllocError, Global};
use tl_budget::NestFault;
use tl_instr::{Code, CodeFault, Instr, MAX_COUNT};
use tl_lowering::{Procedure, read};
use tl_syntax::Position;
use tl_verify::{Proc, VerifyFault, verify};

/// A procedure that was compiled: its name, which is ASCII, and its code.
#[derive(Drop)]
pub struct Compiled {
    pub name: String,
    pub procedure: Proc,
}

// The code of a procedure. What belongs to no statement belongs to the procedure's name.
#[tactic(auto, using(crate::proofs::RoomLemmas::procedure_fits))]
fn draft_of(alloc: Global, procedure: &Procedure) -> Result<Draft, AllocError>
    requires { IsReady procedure.now }
    ensures { IfOk result (λ draft. code_of draft ≡ procedure_code procedure.now.arity procedure.now.body) }
{
    let mut draft = Draft::new(alloc);
    draft.put(procedure.offset, Instr::Return)?;
    let pads = Pads::all(draft.here());
    let context = Context {
        held: NodeSet::EMPTY,
        values: usize::from(procedure.arity),
        nodes: 0,
        pads: &pads,
        exit: None,
        origin: procedure.offset,
    };
    draft.statement(&procedure.body, context)?;
    Ok(draft)
}

// The instructions from the first one on, with positions in place of labels.
#[tactic(auto, using(crate::proofs::CompileLemmas::map_more, crate::proofs::CodeLemmas::as_many))]
fn instrs_of(alloc: Global, draft: &Draft) -> Result<Vec<Instr>, AllocError>
    requires { vec_len draft.now.instrs ≤ MAX_COUNT }
    ensures instrs { IfOk result (λ instrs. instrs.items ≡ at_positions (code_of draft.now)) }
    ensures in_range { IfOk result (λ instrs. All InRange instrs.items) }
{
    let count = draft.instrs.len() as u16;
    let mut instrs = Vec::with_capacity(alloc, draft.instrs.len())?;
    for instr in draft.instrs.iter().rev() {
        let aimed = aimed(instr, count);
        lemma_in_range(&aimed);
        instrs.push(aimed)?;
    }
    Ok(instrs)
}

// The fault for too much of something, at the statement that most of it is for.
fn over(alloc: Global, text: &[u8], draft: &Draft, excess: Excess) -> CompileFault
    ensures { IsExcess excess result }
{
    match heaviest(alloc, draft, excess) {
        Ok((offset, sum)) => CompileFault::Over(excess, sum, Position::of(text, offset)),
        Err(_) => CompileFault::Memory,
    }
}

// Why the verifier refuses a code: for its sums, if memory wasn't refused.
#[tactic(auto, using(crate::proofs::Acceptance::for_sums))]
fn refused(alloc: Global, text: &[u8], draft: &Draft, fault: VerifyFault) -> CompileFault
    requires safe { IsSafe (at_positions (code_of draft.now)) }
    requires first { fault ≢ verify_fault.Memory → IsFirstFault (at_positions (code_of draft.now)) fault }
    ensures { IsVerifierFault fault result }
{
    let excess = match fault {
        VerifyFault::Nest(NestFault::StepsOver) => Excess::Steps,
        VerifyFault::Nest(NestFault::LocksOver) => Excess::Locks,
        VerifyFault::Nest(NestFault::EmitsOver) => Excess::Emits,
        _ => return CompileFault::Memory,
    };
    over(alloc, text, draft, excess)
}

// The code of a draft of at most 1,024 instructions.
#[tactic(auto, using(crate::proofs::CodeForms::is_code, crate::proofs::CodeLemmas::as_many))]
fn assembled(alloc: Global, arity: u8, draft: &Draft) -> Result<Code, AllocError>
    requires arity { arity ≤ MAX_ARGS }
    requires some { 0 < vec_len draft.now.instrs }
    requires few { vec_len draft.now.instrs ≤ MAX_COUNT }
    ensures { IfOk result (λ code. code ≡ record { version = Two; arity = arity; instrs = at_positions (code_of draft.now) }) }
{
    let instrs = instrs_of(alloc, draft)?;
    match Code::new2(alloc, arity, instrs) {
        Ok(code) => Ok(code),
        Err(fault) => {
            // It is a code, so only memory is wanting.
            let wants_memory = fault == CodeFault::Memory;
            prove!(wants_memory);
            Err(AllocError)
        }
    }
}

// A name is ASCII.
#[tactic(auto, using(crate::proofs::NameLemmas::word_utf8))]
fn name_of(name: Vec<u8>) -> String
    requires { IsWord name.items }
    ensures { string_bytes result ≡ name.items }
{
    match String::from_utf8(name) {
        Ok(name) => name,
        Err(_) => unreachable!(),
    }
}

// Compiles a procedure. 294 to 297, or 290.
#[tactic(auto, using(crate::proofs::OneLemmas::some_instrs, crate::proofs::OneLemmas::safe_draft, crate::proofs::OneLemmas::of_code))]
fn compile_one(alloc: Global, text: &[u8], source: Procedure) -> Result<Compiled, CompileFault>
    requires { IsReady source }
    ensures { MatchResult result (IsCompiled source) (IsCodeFault source) }
{
    let draft = draft_of(alloc, &source)?;
    if draft.instrs.len() > MAX_COUNT {
        return Err(over(alloc, text, &draft, Excess::Instructions));
    }
    let code = assembled(alloc, source.arity, &draft)?;
    match verify(alloc, code) {
        Ok(procedure) => Ok(Compiled {
            name: name_of(source.name),
            procedure,
        }),
        Err((_code, fault)) => Err(refused(alloc, text, &draft, fault)),
    }
}

// Compiles the procedures of a text in their order. 294 to 297, or 290.
#[tactic(auto, using(crate::proofs::CompileLemmas::one_more_each, crate::proofs::FaultLemmas::one_of_codes))]
fn compile_all(
    alloc: Global,
    text: &[u8],
    procedures: Vec<Procedure>,
) -> Result<Vec<Compiled>, CompileFault>
    requires { All IsReady procedures.items }
    ensures { MatchResult result (λ compiled. AreCompiled procedures.items compiled.items) (IsCodesFault procedures.items) }
{
    let mut compiled = Vec::new(alloc);
    for procedure in procedures {
        compiled.push(compile_one(alloc, text, procedure)?)?;
    }
    Ok(compiled)
}

/// The procedures of a text, in order, each accepted by the verifier.
///
/// Otherwise the first fault: 255 if the text isn't UTF-8; 270 to 293 and 299 for the text; 294 to 297, procedure by procedure. 290
/// if memory was refused.
#[tactic(auto, using(crate::proofs::FaultLemmas::of_text, crate::proofs::CompileLemmas::compiles, crate::proofs::NumberingLemmas::ready))]
pub fn compile(alloc: Global, text: &[u8]) -> Result<Vec<Compiled>, CompileFault>
    ensures compiled { IfOk result (λ compiled. Compiles text.now compiled.items) }
    ensures fault { IfErr result (IsCompileFault text.now) }
{
    if std::str::from_utf8(text).is_err() {
        return Err(CompileFault::NotUtf8);
    }
    match read(alloc, text) {
        Ok(program) => compile_all(alloc, text, program.procedures),
        Err(fault) => Err(CompileFault::of_syntax(text, fault)),
    }
}

// The procedure of that name.
fn named(procedures: Vec<Compiled>, name: &str) -> Option<Compiled>
    ensures { MatchOption result
        ((one : Compiled) → IsMeant made_name (Some name.now) procedures.items one → ⊥)
        (IsMeant made_name (Some name.now) procedures.items) }
{
    for compiled in procedures {
        if compiled.name.as_str() == name {
            return Some(compiled);
        }
    }
    None
}

// The only procedure.
fn only(mut procedures: Vec<Compiled>) -> Option<Compiled>
    ensures { MatchOption result
        ((one : Compiled) → IsMeant made_name None procedures.items one → ⊥)
        (IsMeant made_name None procedures.items) }
{
    if procedures.len() != 1 {
        return None;
    }
    procedures.pop()
}

/// The procedure of that name, or the only one. 289 if there isn't one.
pub fn one_of(procedures: Vec<Compiled>, name: Option<&str>) -> Result<Compiled, CompileFault>
    ensures { MatchResult result
        (IsMeant made_name (option_map (λ n. n.now) name.entry) procedures.items)
        (λ e. (e ≡ NotOne) × ((one : Compiled) → IsMeant made_name (option_map (λ n. n.now) name.entry) procedures.items one → ⊥)) }
{
    match name {
        Some(name) => named(procedures, name).ok_or(CompileFault::NotOne),
        None => only(procedures).ok_or(CompileFault::NotOne),
    }
}
