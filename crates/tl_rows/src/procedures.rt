// The row of a procedure.

ghost use Rattle.std.specs.Prelude.{◌≡◌, IfOk};
ghost use Rattle.tl_instr.specs.Spelling.{spelling};
ghost use Rattle.tl_rows.specs.Rows.{procedure_form};

use std::alloc::{AllocError, Global};
use tl_ledger::ProcedureRow;
use tl_verify::Proc;

/// The row of a procedure: its name, and its container.
pub fn procedure_row(
    alloc: Global,
    name: &str,
    procedure: &Proc,
) -> Result<ProcedureRow, AllocError>
    ensures { IfOk result (λ row. procedure_form row ≡ (name.now, spelling procedure.now)) }
{
    Ok(ProcedureRow {
        name: String::from_str(alloc, name)?,
        container: procedure.code().container().to_vec(alloc)?,
    })
}
