// The contents of the files that more than one command reads.

ghost use Rattle.std.specs.Prelude.{◌≡◌, ◌≢◌, ◌++◌, [], map, IfOk, IfErr, Ok};
ghost use Rattle.tl_tree.specs.Reading.{tree_of_text};
ghost use Rattle.tl_json.specs.Procedures.{procedure_form};
ghost use Rattle.tl_json.specs.declared.fault.RegisterFault.{RegisterFault};
ghost use Rattle.tl_sources.specs.Given.{GiveAll, IsFirstRefusedFile};
ghost use Rattle.tl_sources.specs.declared.fault.RefusedFile.{RefusedFile};
ghost use Rattle.tl_commands.specs.declared.fault.CliFault.TheVariants.{Sources, Register};
ghost use Rattle.tl_commands.specs.Alone.{IsTreeFault};
ghost use Rattle.tl_commands.specs.Faults.{status_of};
ghost use Rattle.tl_commands.specs.Scripted.{core_with, AreRegistered, IsUnregistered};

use crate::fault::CliFault;
use std::alloc::Global;
use tl_core::Core;
use tl_history::MAX_EVENTS;
use tl_json::{ProcedureText, RegisterFault, register_all};
use tl_procedures::NamedProcedure;
use tl_sources::{Given, all_given};
use tl_tree::{Tree, TreeFault, read_tree};

/// What a script is carried out on: the bytes of the tree's file and of the script's, the files of procedures that are registered after
/// the script's own, and how many nodes the tree may have.
#[derive(Clone, Copy, Debug)]
pub struct Inputs<'a> {
    pub tree: &'a [u8],
    pub script: &'a [u8],
    pub sources: &'a [Given<'a>],
    pub limit: u32,
}

/// The procedures of these files, file by file. Otherwise the first file that is refused, and why. 290 or 490 if memory is refused.
pub fn procedures_of_files(
    alloc: Global,
    files: &[Given<'_>],
) -> Result<Vec<NamedProcedure>, CliFault>
    ensures ok { IfOk result (λ found. GiveAll files.now found.items) }
    ensures fault { IfErr result (λ e. status_of e ≢ 4 → (f : RefusedFile) × (e ≡ Sources f) × IsFirstRefusedFile files.now f) }
{
    match all_given(alloc, files) {
        Ok(procedures) => Ok(procedures),
        Err(refused) => Err(CliFault::Sources(refused)),
    }
}

/// The tree of at most `limit` nodes in a file. 106 if the file isn't UTF-8 or has another form, then 101 to 105.
pub fn tree_of_file(alloc: Global, bytes: &[u8], limit: u32) -> Result<Tree, TreeFault>
    ensures ok { IfOk result (λ t. tree_of_text limit bytes.now ≡ Ok t) }
    ensures fault { IfErr result (λ f. f ≢ TreeFault.Memory → IsTreeFault limit bytes.now f) }
{
    match std::str::from_utf8(bytes) {
        Ok(text) => read_tree(alloc, text, limit),
        Err(_) => Err(TreeFault::NotTree),
    }
}

/// A core of the tree with a script's procedures, and then `more`. Otherwise what is wrong with the first procedure that has a fault: its
/// text, its code or its name. 290, 490 or 690 if memory is refused.
pub fn core_of(
    alloc: Global,
    tree: Tree,
    texts: &[ProcedureText],
    more: Vec<NamedProcedure>,
) -> Result<Core, CliFault>
    ensures registered { IfOk result (λ core. AreRegistered (map procedure_form texts.now) more.items core.seen.procedures) }
    ensures ok { IfOk result (λ core. core.seen ≡ core_with tree core.seen.procedures) }
    ensures fault { IfErr result (λ e. status_of e ≢ 4 → (f : RegisterFault) × (e ≡ Register f) × IsUnregistered (map procedure_form texts.now) more.items f) }
{
    let own = match register_all(alloc, texts) {
        Ok(own) => own,
        Err(fault) => return Err(CliFault::Register(fault)),
    };
    let procedures = match own.and_all(alloc, more) {
        Ok(procedures) => procedures,
        Err(fault) => return Err(CliFault::Register(RegisterFault::Name(fault))),
    };
    match Core::with_procedures(alloc, tree, procedures, MAX_EVENTS) {
        Ok(core) => Ok(core),
        Err(fault) => Err(CliFault::Core(fault)),
    }
}
