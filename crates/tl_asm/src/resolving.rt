//! From labels to targets.

ghost use Rattle.std.specs.Prelude.{◌≡◌, ◌≢◌, ℕ, Some, length, map, IfOk, IfErr};
ghost use Rattle.tl_asm.specs.Texts.{aimed};
ghost use Rattle.tl_asm.specs.Sketches.{known, traced, drafts_of, IsAstray};

use crate::fault::AsmFault;
use crate::sketch::Origin;
use indexmap::IndexMap;
use std::alloc::Global;
use tl_instr::Instr;

/// The instructions with their targets, or 252 at the first instruction whose label isn't defined.
pub fn resolved<'a>(
    alloc: Global,
    instrs: &[Instr],
    origins: &[Origin<'a>],
    labels: &IndexMap<&'a [u8], u16>,
) -> Result<Vec<Instr>, AsmFault>
    requires { length origins.now ≡ length instrs.now }
    ensures found { IfOk result (λ v. map (λ d. aimed (known labels.now.entries) d.1.instr d.1.label) (drafts_of instrs.now (traced origins.now)) ≡ map Some v.items) }
    ensures fault { IfErr result (λ f. f ≢ AsmFault.Memory → (n : ℕ) × (f ≡ AsmFault.NoLabel n) × IsAstray (known labels.now.entries) (drafts_of instrs.now (traced origins.now)) n) }
{
    let mut resolved = Vec::with_capacity(alloc, instrs.len())?;
    for index in 0..instrs.len() {
        let Origin { line, label } = origins[index];
        let instr = match label {
            None => instrs[index],
            Some(label) => match labels.get(&label) {
                None => return Err(AsmFault::NoLabel(line)),
                Some(target) => instrs[index].with_target(*target),
            },
        };
        resolved.push(instr)?;
    }
    Ok(resolved)
}
