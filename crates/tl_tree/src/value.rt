// Trees, records and numbers as JSON values, for reading and writing larger documents.

ghost use Rattle.std.specs.Prelude.{◌≡◌, ◌≢◌, ◌≤◌, ℕ, codes, map, option_map, option_and_then, length, pos, Err, Ok, IfOk, IfErr, OnOk, MatchResult, All, FitsSigned};
ghost use Rattle.std.specs.Int.{w64};
ghost use Rattle.serde_json.specs.Data.{object, member, no_members};
ghost use Rattle.serde_json.specs.View.{view, items_view};
ghost use Rattle.tl_tree.specs.Reading.{each_item, integer_of, integers_of, if_record, record_of, records_of, parts_of, form_at, tree_at, tree_of, StandsFor};
ghost use Rattle.tl_tree.specs.Trees.{TreeValue, IsRecord};
ghost use Rattle.tl_tree.specs.Writing.{integer_data, integers_data, records_data, tree_data};

use crate::fault::TreeFault;
use crate::record::{Record, Width};
use crate::shape::Shape;
use crate::tree::Tree;
use serde_json::{Value, json};
use std::alloc::{AllocError, Global};
use std::sync::Arc;
use tl_width::FIELD_COUNT;

/// The numbers of a list of 64-bit integers, or `None` for another value.
pub fn integers_from_value(alloc: Global, value: &Value) -> Result<Option<Vec<i64>>, AllocError>
    ensures { IfOk result (λ found. option_map (λ v. v.items) found
        ≡ integers_of (view value.now)) }
{
    match value.as_array() {
        Some(items) => integers_from_items(alloc, items),
        None => Ok(None),
    }
}

fn integers_from_items(alloc: Global, items: &[Value]) -> Result<Option<Vec<i64>>, AllocError>
    ensures { IfOk result (λ found. option_map (λ v. v.items) found
        ≡ each_item integer_of (items_view items.now)) }
{
    let mut integers = Vec::with_capacity(alloc, items.len())?;
    for item in items {
        let Some(integer) = item.as_i64() else {
            return Ok(None);
        };
        integers.push(integer)?;
    }
    Ok(Some(integers))
}

/// The record that a value stands for, if it has that width.
pub fn record_from_value(width: Width, value: &Value) -> Option<Record>
    ensures { result ≡ record_of width (view value.now) }
{
    record_from_items(width, value.as_array()?)
}

fn record_from_items(width: Width, items: &[Value]) -> Option<Record>
    ensures { result ≡ option_and_then (if_record width) (each_item integer_of (items_view items.now)) }
{
    let count = width.count();
    if items.len() != count {
        return None;
    }
    let mut fields = [0; FIELD_COUNT];
    for i in 0..count {
        fields[i] = items[i].as_i64()?;
    }
    Some(fields)
}

/// The records of a list of records of that width, or `None` for another value.
pub fn records_from_value(
    alloc: Global,
    width: Width,
    value: &Value,
) -> Result<Option<Vec<Record>>, AllocError>
    ensures { IfOk result (λ found. option_map (λ v. v.items) found
        ≡ records_of width (view value.now)) }
{
    match value.as_array() {
        Some(items) => records_from_items(alloc, width, items),
        None => Ok(None),
    }
}

fn records_from_items(
    alloc: Global,
    width: Width,
    items: &[Value],
) -> Result<Option<Vec<Record>>, AllocError>
    ensures { IfOk result (λ found. option_map (λ v. v.items) found
        ≡ each_item (record_of width) (items_view items.now)) }
{
    let mut records = Vec::with_capacity(alloc, items.len())?;
    for item in items {
        let Some(record) = record_from_value(width, item) else {
            return Ok(None);
        };
        records.push(record)?;
    }
    Ok(Some(records))
}

/// The tree of at most `limit` nodes that a value stands for, whose records have that width: an object with exactly the members `parents` and
/// `records`.
///
/// The first fault: 106 if the members aren't a list of integers and a list of such records, then 101 to 105 in their
/// order. 190 if memory is refused.
pub fn tree_from_value(
    alloc: Global,
    width: Width,
    value: &Value,
    limit: u32,
) -> Result<Tree, TreeFault>
    ensures ok { IfOk result (λ t. tree_at limit width (view value.now) ≡ Ok t) }
    ensures fault { IfErr result (λ e. e ≢ TreeFault.Memory → tree_at limit width (view value.now) ≡ Err e) }

    // The value stands for the tree that is read, and a value that stands for a tree is read.
    ensures stands { IfOk result (λ t. StandsFor width (view value.now) t) }
    ensures taken { (t : TreeValue) → StandsFor width (view value.now) t → length t.parents ≤ limit
        → MatchResult result (λ r. r ≡ t) (λ e. e ≡ TreeFault.Memory) }
{
    checked_tree(alloc, width, value, limit)
}

// The same, with a contract that uses only the definition.
fn checked_tree(alloc: Global, width: Width, value: &Value, limit: u32) -> Result<Tree, TreeFault>
    ensures ok { IfOk result (λ t. tree_at limit width (view value.now) ≡ Ok t) }
    ensures fault { IfErr result (λ e. e ≢ TreeFault.Memory → tree_at limit width (view value.now) ≡ Err e) }
{
    let Some((parents, records)) = form_from_value(alloc, width, value)? else {
        return Err(TreeFault::NotTree);
    };
    let shape = Shape::new(alloc, &parents, limit)?;
    Tree::new(Arc::new(alloc, shape)?, records)
}

// The parents and the records, if the value has the form of a tree with records of that width.
fn form_from_value(
    alloc: Global,
    width: Width,
    value: &Value,
) -> Result<Option<(Vec<i64>, Vec<Record>)>, AllocError>
    ensures { IfOk result (λ found. option_map (λ form. (form.0.items, form.1.items)) found
        ≡ form_at width (view value.now)) }
{
    let Some((parents, records)) = parts_of_value(value) else {
        return Ok(None);
    };
    let Some(parents) = integers_from_value(alloc, parents)? else {
        return Ok(None);
    };
    let Some(records) = records_from_value(alloc, width, records)? else {
        return Ok(None);
    };
    Ok(Some((parents, records)))
}

// The members of an object that has exactly these two.
fn parts_of_value(value: &Value) -> Option<(&Value, &Value)>
    ensures { option_map (λ parts. (view parts.0.now, view parts.1.now)) result
        ≡ parts_of (view value.now) }
{
    if value.as_object()?.len() != 2 {
        return None;
    }
    Some((value.get("parents")?, value.get("records")?))
}

fn integer_to_value(integer: i64) -> Value
    ensures value { view result ≡ integer_data integer }
    ensures fits { FitsSigned w64 integer }
{
    Value::from(integer)
}

/// The list of these numbers.
pub fn integers_to_value(alloc: Global, integers: &[i64]) -> Result<Value, AllocError>
    ensures value { IfOk result (λ v. view v ≡ integers_data integers.now) }
    ensures fit { OnOk result (All (FitsSigned w64) integers.now) }
{
    let mut items = Vec::with_capacity(alloc, integers.len())?;
    for integer in integers {
        items.push(integer_to_value(*integer))?;
    }
    Ok(Value::Array(items))
}

/// The list of a record's fields.
pub fn record_to_value(alloc: Global, fields: &Record) -> Result<Value, AllocError>
    ensures value { IfOk result (λ v. view v ≡ integers_data fields.now) }
    ensures record { OnOk result (IsRecord fields.now) }
{
    integers_to_value(alloc, fields)
}

/// The list of these records.
pub fn records_to_value(alloc: Global, records: &[Record]) -> Result<Value, AllocError>
    ensures value { IfOk result (λ v. view v ≡ records_data records.now) }
    ensures each { OnOk result (All IsRecord records.now) }
{
    let mut items = Vec::with_capacity(alloc, records.len())?;
    for fields in records {
        items.push(record_to_value(alloc, fields)?)?;
    }
    Ok(Value::Array(items))
}

/// The object that stands for a tree: its members `parents` and `records`.
pub fn tree_to_value(alloc: Global, tree: &Tree) -> Result<Value, AllocError>
    ensures value { IfOk result (λ v. view v ≡ tree_data tree.now) }
    ensures reads_back { IfOk result (λ v. (limit : ℕ) → length tree.now.parents ≤ limit → tree_at limit Width.Wide (view v) ≡ Ok tree.now) }
{
    let parents = shape_to_value(alloc, tree.shape())?;
    let records = records_to_value(alloc, tree.records())?;
    parts_to_value(alloc, parents, records)
}

fn parts_to_value(alloc: Global, parents: Value, records: Value) -> Result<Value, AllocError>
    ensures { IfOk result (λ v. view v ≡ object (member (codes "parents") (view parents)
        (member (codes "records") (view records) no_members))) }
{
    json!(in alloc; {"parents": parents, "records": records})
}

fn shape_to_value(alloc: Global, shape: &Shape) -> Result<Value, AllocError>
    ensures { IfOk result (λ v. view v ≡ integers_data (map pos shape.now)) }
{
    let mut items = Vec::with_capacity(alloc, shape.node_count() as usize)?;
    for node in 0..shape.node_count() {
        items.push(Value::from(shape.parent(node)))?;
    }
    Ok(Value::Array(items))
}
