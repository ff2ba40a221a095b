// The first record that isn't that of its node.

ghost use Rattle.std.specs.Prelude.{◌≡◌, ◌↔◌, map, IsTrue, IfSome, IfNone};
ghost use Rattle.tl_rows.specs.Rows.{fields_in};
ghost use Rattle.tl_export.specs.Differing.{IsSame, IsFirstOther};

use tl_ledger::RecordRow;
use tl_tree::Record;

// Whether the record is that of the row.
fn is_of(record: &Record, row: &RecordRow) -> bool
    ensures { IsTrue result ↔ (record.now ≡ fields_in row.now) }
{
    *record == row.fields
}

// Whether the node's record is that of its row.
fn is_same(records: &[Record], rows: &[RecordRow], node: usize) -> bool
    ensures { IsTrue result ↔ IsSame records.now rows.now node }
{
    match (records.get(node), rows.get(node)) {
        (Some(record), Some(row)) => is_of(record, row),
        _ => false,
    }
}

/// The first node whose record isn't that of its row. None if they are the same.
pub(crate) fn first_other(records: &[Record], rows: &[RecordRow]) -> Option<usize>
    ensures some { IfSome result (λ node. IsFirstOther records.now rows.now node) }
    ensures none { IfNone result (records.now ≡ map fields_in rows.now) }
{
    let count = records.len().max(rows.len());
    for node in 0..count {
        if !is_same(records, rows, node) {
            return Some(node);
        }
    }
    None
}
