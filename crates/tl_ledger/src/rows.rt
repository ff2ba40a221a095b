// The kinds of rows.

ghost use Rattle.std.specs.Prelude.{◌≡◌, ◌++◌, map, OnOk};
ghost use Rattle.sqlite_value.specs.Value.{owned};
ghost use Rattle.tl_ledger.specs.News.{key_column, node_columns, record_columns, procedure_columns, call_columns, turn_columns, reply_columns, seal_columns};

use crate::entry::Entry;
use sqlite_value::row::Row;
use sqlite_value::value::ValueRef;
use std::alloc::AllocError;

/// How many fields a record has.
pub const FIELDS: usize = 8;

/// A node: its parent, and the epoch at whose beginning it was there first.
#[derive(Clone, Copy, Debug)]
pub struct NodeRow {
    pub parent: i64,
    pub epoch: i64,
}

/// The record of a node.
#[derive(Clone, Copy, Debug)]
pub struct RecordRow {
    pub fields: [i64; FIELDS],
}

/// A node and its record, which isn't the one that is stored.
#[derive(Clone, Copy, Debug)]
pub struct ChangedRecord {
    pub node: u64,
    pub row: RecordRow,
}

/// A procedure that was registered: its name and its container.
#[derive(Debug, Drop)]
pub struct ProcedureRow {
    pub name: String,
    pub container: Vec<u8>,
}

/// A call that was admitted: its epoch, its number there, the name of its procedure, its arguments as JSON,
/// and the key by which its client may ask for it again.
#[derive(Debug, Drop)]
pub struct CallRow {
    pub epoch: i64,
    pub number: i64,
    pub procedure: String,
    pub arguments: String,
    pub key: Option<String>,
}

/// Which calls took the turns since the last commit, two bytes each.
#[derive(Debug, Drop)]
pub struct TurnRow {
    pub epoch: i64,
    pub calls: Vec<u8>,
}

/// A call that was done: its epoch, its number there, and its reply as JSON.
#[derive(Debug, Drop)]
pub struct ReplyRow {
    pub epoch: i64,
    pub call: i64,
    pub reply: String,
}

/// A seal: how many rows of procedures, calls, turns and replies there were then.
#[derive(Clone, Copy, Debug)]
pub struct SealRow {
    pub procedures: i64,
    pub calls: i64,
    pub turns: i64,
    pub replies: i64,
}

// Adds columns to a row.
fn push_all(row: &mut Row, columns: &[ValueRef<'_>]) -> Result<(), AllocError>
    ensures { OnOk result (row.new ≡ row.old ++ map owned columns.now) }
{
    for column in columns {
        row.push(*column)?;
    }
    Ok(())
}

impl Entry for NodeRow {
    ghost columns = { node_columns };

    fn push_to(&self, row: &mut Row) -> Result<(), AllocError> {
        let columns = [
            ValueRef::Null,
            ValueRef::Int(self.parent),
            ValueRef::Int(self.epoch),
        ];
        push_all(row, &columns)
    }
}

impl Entry for RecordRow {
    ghost columns = { record_columns };

    fn push_to(&self, row: &mut Row) -> Result<(), AllocError> {
        row.push(ValueRef::Null)?;
        for field in &self.fields {
            row.push(ValueRef::Int(*field))?;
        }
        Ok(())
    }
}

impl Entry for ProcedureRow {
    ghost columns = { procedure_columns };

    fn push_to(&self, row: &mut Row) -> Result<(), AllocError> {
        let columns = [
            ValueRef::Null,
            ValueRef::Text(self.name.as_bytes()),
            ValueRef::Blob(self.container.as_slice()),
        ];
        push_all(row, &columns)
    }
}

// The column of a key.
fn key_of(key: &Option<String>) -> ValueRef<'_>
    ensures { owned result ≡ key_column key.now }
{
    match key {
        Some(key) => ValueRef::Text(key.as_bytes()),
        None => ValueRef::Null,
    }
}

impl Entry for CallRow {
    ghost columns = { call_columns };

    fn push_to(&self, row: &mut Row) -> Result<(), AllocError> {
        let columns = [
            ValueRef::Null,
            ValueRef::Int(self.epoch),
            ValueRef::Int(self.number),
            ValueRef::Text(self.procedure.as_bytes()),
            ValueRef::Text(self.arguments.as_bytes()),
            key_of(&self.key),
        ];
        push_all(row, &columns)
    }
}

impl Entry for TurnRow {
    ghost columns = { turn_columns };

    fn push_to(&self, row: &mut Row) -> Result<(), AllocError> {
        let columns = [
            ValueRef::Null,
            ValueRef::Int(self.epoch),
            ValueRef::Blob(self.calls.as_slice()),
        ];
        push_all(row, &columns)
    }
}

impl Entry for ReplyRow {
    ghost columns = { reply_columns };

    fn push_to(&self, row: &mut Row) -> Result<(), AllocError> {
        let columns = [
            ValueRef::Null,
            ValueRef::Int(self.epoch),
            ValueRef::Int(self.call),
            ValueRef::Text(self.reply.as_bytes()),
        ];
        push_all(row, &columns)
    }
}

impl Entry for SealRow {
    ghost columns = { seal_columns };

    fn push_to(&self, row: &mut Row) -> Result<(), AllocError> {
        let columns = [
            ValueRef::Null,
            ValueRef::Int(self.procedures),
            ValueRef::Int(self.calls),
            ValueRef::Int(self.turns),
            ValueRef::Int(self.replies),
        ];
        push_all(row, &columns)
    }
}
