//! The container: a code as bytes.

ghost use Rattle.std.specs.Prelude.{◌≡◌, ◌≢◌, ℕ, List, ◌+◌, ◌*◌, ◌<◌, ◌≤◌, length, drop, slice_index, ◌↔◌, IsOk, IfOk, IfErr, MatchResult, MatchOption};
ghost use Rattle.std.specs.List.{All, flat_map};
ghost use Rattle.tl_instr.specs.Codes.{CodeValue, IsCode, migrated};
ghost use Rattle.tl_instr.specs.declared.version.Version.TheVariants.{One};
ghost use Rattle.tl_instr.specs.Faults.{HasMagic, version_at, IsFramed, IsCellFault, IsFirstFault, count_at, cell_at};
ghost use Rattle.tl_instr.specs.Instructions.{IsInstr};
ghost use Rattle.tl_instr.specs.Spelling.{Spelled, spelling, instr_bytes};

use crate::cell::Cell;
use crate::code::{Code, MAX_COUNT};
use crate::fault::CodeFault;
use crate::instr::Instr;
use crate::operand::Arity;
use crate::reading;
use crate::version::Version;
use std::alloc::Global;

/// How many bytes come before the instructions.
const HEADER_SIZE: usize = 8;

#[derive(Drop)]
struct Header {
    version: Version,
    arity: Arity,
    count: u16,
}

/// The version that the first four bytes name.
fn version_of(bytes: &[u8]) -> Option<Version>
    ensures { MatchOption result (¬ HasMagic bytes.now) (λ v. HasMagic bytes.now × (v ≡ version_at bytes.now)) }
{
    if bytes.starts_with(&Version::One.magic()) {
        return Some(Version::One);
    }
    if bytes.starts_with(&Version::Two.magic()) {
        return Some(Version::Two);
    }
    None
}

/// The header, if there are as many bytes as it says.
fn header_of(bytes: &[u8]) -> Result<Header, CodeFault>
    ensures { MatchResult result
        (λ h. IsFramed bytes.now × (h.version ≡ version_at bytes.now) × (h.arity ≡ slice_index bytes.now 4) × (h.count ≡ count_at bytes.now))
        (IsFirstFault bytes.now) }
{
    let version = version_of(bytes).ok_or(CodeFault::BadMagic)?;
    if bytes.len() < HEADER_SIZE {
        return Err(CodeFault::BadLength);
    }
    let arity = Arity::new(bytes[4]).ok_or(CodeFault::BadArity)?;
    if bytes[5] != 0 {
        return Err(CodeFault::BadArity);
    }
    let count = u16::from_be_bytes([bytes[6], bytes[7]]);
    if count == 0 || usize::from(count) > MAX_COUNT {
        return Err(CodeFault::BadCount);
    }
    if bytes.len() != HEADER_SIZE + Cell::SIZE * usize::from(count) {
        return Err(CodeFault::BadLength);
    }
    Ok(Header {
        version,
        arity,
        count,
    })
}

/// The instruction at a position.
fn instr_at(bytes: &[u8], version: Version, count: u16, position: u16) -> Result<Instr, CodeFault>
    requires framed { IsFramed bytes.now }
    requires version { version ≡ version_at bytes.now }
    requires counted { count ≡ count_at bytes.now }
    requires inside { position < count }
    ensures { MatchResult result
        (λ i. IsInstr version count i × (instr_bytes i ≡ cell_at bytes.now position))
        (IsCellFault bytes.now position) }
{
    let start = HEADER_SIZE + Cell::SIZE * usize::from(position);
    let cell = Cell::from_bytes(&bytes[start..start + Cell::SIZE]);
    if let Some(instr) = reading::instr_of(cell, version, count) {
        return Ok(instr);
    }
    if reading::is_opcode(version, cell.opcode) {
        Err(CodeFault::BadOperand(position))
    } else {
        Err(CodeFault::BadOpcode(position))
    }
}

/// The instructions after the header.
fn instrs_of(
    alloc: Global,
    bytes: &[u8],
    version: Version,
    count: u16,
) -> Result<Vec<Instr>, CodeFault>
    requires framed { IsFramed bytes.now }
    requires version { version ≡ version_at bytes.now }
    requires counted { count ≡ count_at bytes.now }
    ensures valid { IfOk result (λ v. All (IsInstr version count) v.items × (length v.items ≡ count)) }
    ensures spelled { IfOk result (λ v. drop 8 bytes.now ≡ flat_map instr_bytes v.items) }
    ensures fault { IfErr result (λ f. f ≢ CodeFault.Memory → IsFirstFault bytes.now f) }
{
    let mut instrs = Vec::with_capacity(alloc, usize::from(count))?;
    for position in 0..count {
        instrs.push(instr_at(bytes, version, count, position)?)?;
    }
    Ok(instrs)
}

/// The code that all of the bytes spell.
///
/// The error is the first of these faults: 201 if the first four bytes are neither `TLP1` nor `TLP2`; 202 if there are
/// fewer than 8 bytes; 206 if the arity is above 8 or the byte after it isn't 0; 205 if the count isn't 1 to 1,024; 202 if
/// there aren't exactly 8 bytes, and 8 more for each instruction. Then, at the first position whose eight bytes aren't an
/// instruction, 203 if no instruction has that opcode, and 204 otherwise. 290 if memory is refused.
pub fn decode(alloc: Global, bytes: &[u8]) -> Result<Code, CodeFault>
    // The bytes spell the code that is read.
    ensures found { IfOk result (λ code. Spelled bytes.now code) }
    // If the bytes spell a code, it is read, unless memory is refused.
    ensures only { (c : CodeValue) → Spelled bytes.now c → MatchResult result
        (λ code. code ≡ c)
        (λ f. f ≡ CodeFault.Memory) }
    // Which fault it is.
    ensures fault { IfErr result (λ f. f ≢ CodeFault.Memory → IsFirstFault bytes.now f) }
{
    let Header {
        version,
        arity,
        count,
    } = header_of(bytes)?;
    let instrs = instrs_of(alloc, bytes, version, count)?;
    Ok(Code::from_parts(version, arity, instrs, bytes.to_vec(alloc)?))
}

/// The container of a code of these parts.
pub(crate) fn spell(
    alloc: Global,
    version: Version,
    arity: Arity,
    instrs: &[Instr],
) -> Result<Vec<u8>, CodeFault>
    requires { length instrs.now ≤ MAX_COUNT }
    ensures spelled { IfOk result (λ bytes. bytes.items ≡ spelling (record { version = version; arity = arity; instrs = instrs.now })) }
    ensures memory { IfErr result (λ f. f ≡ CodeFault.Memory) }
{
    let count = instrs.len() as u16;
    let size = HEADER_SIZE + Cell::SIZE * usize::from(count);
    let mut bytes = Vec::with_capacity(alloc, size)?;
    bytes.extend_from_slice(&version.magic())?;
    bytes.extend_from_slice(&[arity.number(), 0])?;
    bytes.extend_from_slice(&count.to_be_bytes())?;
    for instr in instrs {
        bytes.extend_from_slice(&instr.cell().to_bytes())?;
    }
    Ok(bytes)
}

/// The one spelling of the code.
///
/// 290 if memory is refused.
pub fn encode(alloc: Global, code: &Code) -> Result<Vec<u8>, CodeFault>
    ensures spelled { IfOk result (λ bytes. Spelled bytes.items code.now) }
    ensures memory { IfErr result (λ f. f ≡ CodeFault.Memory) }
{
    Ok(code.container().to_vec(alloc)?)
}

/// The same arity and instructions as a code of the second version of the language. Only the fourth byte of its container
/// differs. Takes no memory.
///
/// 207 if the code isn't of the first version; then it is handed back.
pub fn migrate_code(code: Code) -> Result<Code, (Code, CodeFault)>
    ensures first { IsOk result ↔ (code.version ≡ One) }
    ensures same { IfOk result (λ c. c ≡ migrated code) }
    ensures handed_back { IfErr result (λ e. (e.0 ≡ code) × (e.1 ≡ CodeFault.NotVersion1)) }
{
    code.into_version_2()
}

/// The laws of spellings: each code has one, and no bytes spell two codes. Bytes have a first fault only if they spell no
/// code, and never more than one.
pub fn one_spelling()
    ensures each { (c : CodeValue) → IsCode c → Spelled (spelling c) c }
    ensures one_code { (bytes : List ℕ) (c d : CodeValue) → Spelled bytes c → Spelled bytes d → c ≡ d }
    ensures one_spelling { (a b : List ℕ) (c : CodeValue) → Spelled a c → Spelled b c → a ≡ b }
    ensures faultless { (bytes : List ℕ) (c : CodeValue) (f : CodeFault) → Spelled bytes c → ¬ IsFirstFault bytes f }
    ensures one_fault { (bytes : List ℕ) (f g : CodeFault) → IsFirstFault bytes f → IsFirstFault bytes g → f ≡ g }
{}
