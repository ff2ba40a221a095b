// Rows as a line of JSON.

use crate::found::Found;
use serde_json::{Value, json};
use std::alloc::{AllocError, Global};
use tl_ledger::{CallRow, Marks, NodeRow, ProcedureRow, RecordRow, ReplyRow, SealRow, TurnRow};

// The value of a row.
trait Shown {
    fn to_value(&self, alloc: Global) -> Result<Value, AllocError>;
}

impl Shown for NodeRow {
    fn to_value(&self, alloc: Global) -> Result<Value, AllocError> {
        json!(in alloc; [self.parent, self.epoch])
    }
}

impl Shown for RecordRow {
    fn to_value(&self, alloc: Global) -> Result<Value, AllocError> {
        let mut items = Vec::with_capacity(alloc, self.fields.len())?;
        for field in &self.fields {
            items.push(Value::from(*field))?;
        }
        Ok(Value::Array(items))
    }
}

impl Shown for ProcedureRow {
    fn to_value(&self, alloc: Global) -> Result<Value, AllocError> {
        let name = Value::String(String::from_str(alloc, &self.name)?);
        let container = Value::String(hex::encode(alloc, self.container.as_slice())?);
        json!(in alloc; [name, container])
    }
}

impl Shown for CallRow {
    fn to_value(&self, alloc: Global) -> Result<Value, AllocError> {
        let procedure = Value::String(String::from_str(alloc, &self.procedure)?);
        let arguments = Value::String(String::from_str(alloc, &self.arguments)?);
        let key = match &self.key {
            Some(key) => Value::String(String::from_str(alloc, key)?),
            None => Value::Null,
        };
        json!(in alloc; [self.epoch, self.number, procedure, arguments, key])
    }
}

impl Shown for TurnRow {
    fn to_value(&self, alloc: Global) -> Result<Value, AllocError> {
        let calls = Value::String(hex::encode(alloc, self.calls.as_slice())?);
        json!(in alloc; [self.epoch, calls])
    }
}

impl Shown for ReplyRow {
    fn to_value(&self, alloc: Global) -> Result<Value, AllocError> {
        let reply = Value::String(String::from_str(alloc, &self.reply)?);
        json!(in alloc; [self.epoch, self.call, reply])
    }
}

impl Shown for SealRow {
    fn to_value(&self, alloc: Global) -> Result<Value, AllocError> {
        json!(in alloc; [self.procedures, self.calls, self.turns, self.replies])
    }
}

fn list_of<T: Shown>(alloc: Global, rows: &[T]) -> Result<Value, AllocError> {
    let mut items = Vec::with_capacity(alloc, rows.len())?;
    for row in rows {
        items.push(row.to_value(alloc)?)?;
    }
    Ok(Value::Array(items))
}

// How many epochs the volumes before have, and how many rows of each table.
fn position(alloc: Global, volume: u64, marks: &Marks) -> Result<Value, AllocError> {
    json!(in alloc; [
        volume, marks.nodes, marks.procedures, marks.calls, marks.turns, marks.replies, marks.seals
    ])
}

fn records_of(alloc: Global, records: &Option<Vec<RecordRow>>) -> Result<Value, AllocError> {
    match records {
        Some(records) => list_of(alloc, records.as_slice()),
        None => Ok(Value::Null),
    }
}

/// The line of what a volume of that number has behind a position, without its LF.
pub fn line_of(alloc: Global, volume: u64, found: &Found) -> Result<String, AllocError> {
    let rows = &found.rows;
    let nodes = list_of(alloc, rows.nodes.as_slice())?;
    let procedures = list_of(alloc, rows.procedures.as_slice())?;
    let calls = list_of(alloc, rows.calls.as_slice())?;
    let turns = list_of(alloc, rows.turns.as_slice())?;
    let replies = list_of(alloc, rows.replies.as_slice())?;
    let seals = list_of(alloc, rows.seals.as_slice())?;
    let records = records_of(alloc, &found.records)?;
    let opening = records_of(alloc, &found.opening)?;
    let to = position(alloc, volume, &rows.to)?;
    let value = json!(in alloc; {
        "call": calls, "node": nodes, "opening": opening, "procedure": procedures, "record": records,
        "reply": replies, "seal": seals, "to": to, "turn": turns
    })?;
    Ok(value.to_string(alloc)?)
}
