// The rows of records.

ghost use Rattle.std.specs.Prelude.{◌≡◌, map, IfOk};
ghost use Rattle.tl_rows.specs.Rows.{fields_in};

use std::alloc::{AllocError, Global};
use tl_ledger::RecordRow;
use tl_tree::Record;

/// The row of a record.
pub fn record_row(fields: &Record) -> RecordRow
    ensures { result.fields ≡ fields.now }
{
    RecordRow { fields: *fields }
}

/// The rows of records.
pub fn record_rows(alloc: Global, records: &[Record]) -> Result<Vec<RecordRow>, AllocError>
    ensures { IfOk result (λ v. map fields_in v.items ≡ records.now) }
{
    let mut rows = Vec::new(alloc);
    for fields in records {
        rows.push(record_row(fields))?;
    }
    Ok(rows)
}
