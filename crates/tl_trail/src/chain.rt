// Chains of trails, one per epoch: reading them from text and writing them as text.
//
// A chain may have many trails, so no value of the whole is made. If the members of each trail come in the order in which
// they are written, they are read from their tokens; otherwise a value is made of one trail at a time. Only for a text with
// a fault and with a number that isn't an integer of 64 bits is a value of the whole made: nothing else shows whether it is
// JSON.

ghost use Rattle.std.specs.Prelude.{◌≡◌, ◌≢◌, ◌≤◌, ℕ, List, All, length, string_bytes, IfOk, IfErr, IfSome, MatchResult};
ghost use Rattle.serde_json.specs.View.{view, items_view};
ghost use Rattle.tl_json.specs.Lists.{items_of_list};
ghost use Rattle.tl_trail.specs.Chains.{AreEach, IsFirstOf, IsChain, IsFaultOfChain, IsChainText, IsFirstChainFault, chain_of, chain_text};
ghost use Rattle.tl_trail.specs.ChainTokens.{BeginsWithTrail, BeginsWithTrails, IsLeftBehind, IsListed, IsListedIn};
ghost use Rattle.tl_trail.specs.Trails.{TrailValue};

use crate::fault::TrailFault;
use crate::reading::{checked_trail, trail_of_value};
use crate::tokens::{TRAIL_DEPTH, trail_members};
use crate::trail::Trail;
use crate::writing::push_trail;
use json::{Reader, Scratch, Token};
use serde_json::Value;
use std::alloc::{AllocError, Global};
use tl_json::parse_text;
use tl_tokens::value;

/// The most trails that a chain has.
pub const MAX_TRAILS: usize = 256;

// ---- each trail from its tokens

// The next trail, if its members come in their order and it has no fault.
fn next_in_order(
    alloc: Global,
    reader: &mut Reader<'_>,
    limit: u32,
) -> Result<Option<Trail>, TrailFault>
    ensures some { IfOk result (λ found. IfSome found (λ t. BeginsWithTrail limit reader.old t reader.new)) }
    ensures err { IfErr result (λ e. e ≡ TrailFault.Memory) }
{
    let Some(Token::BeginObject) = reader.next() else {
        return Ok(None);
    };
    let Some((tree, raw)) = trail_members(alloc, reader, limit)? else {
        return Ok(None);
    };
    match checked_trail(alloc, tree, raw) {
        Ok(trail) => Ok(Some(trail)),
        Err(TrailFault::Memory) => Err(TrailFault::Memory),
        Err(_) => Ok(None),
    }
}

// The trails up to the end of their list, if each can be read from its tokens and a chain may have that many.
fn each_in_order(
    alloc: Global,
    reader: &mut Reader<'_>,
    limit: u32,
) -> Result<Option<Vec<Trail>>, TrailFault>
    ensures some { IfOk result (λ found. IfSome found (λ ts. BeginsWithTrails limit reader.old ts.items reader.new)) }
    ensures few { IfOk result (λ found. IfSome found (λ ts. length ts.items ≤ MAX_TRAILS)) }
    ensures err { IfErr result (λ e. e ≡ TrailFault.Memory) }
{
    let mut trails = Vec::new(alloc);
    while !reader.take_end_array() {
        if trails.len() == MAX_TRAILS {
            return Ok(None);
        }
        let Some(trail) = next_in_order(alloc, reader, limit)? else {
            return Ok(None);
        };
        trails.push(trail)?;
    }
    Ok(Some(trails))
}

// The trails of a text, if each can be read from its tokens.
fn chain_in_order(alloc: Global, text: &str, limit: u32) -> Result<Option<Vec<Trail>>, TrailFault>
    ensures some { IfOk result (λ found. IfSome found (λ ts. IsChainText limit text.now ts.items)) }
    ensures err { IfErr result (λ e. e ≡ TrailFault.Memory) }
{
    let mut scratch = Scratch::new(alloc);
    let mut reader = Reader::new(text, &mut scratch)?;
    let Some(Token::BeginArray) = reader.next() else {
        return Ok(None);
    };
    let Some(trails) = each_in_order(alloc, &mut reader, limit)? else {
        return Ok(None);
    };
    if reader.next().is_some() || trails.is_empty() {
        return Ok(None);
    }
    Ok(Some(trails))
}

// ---- each trail from a value of its own

/// The trails of a list, or the fault of the first trail that has one. `Unread`: the list has a value that can't be read
/// here, and nothing is known about it.
#[derive(Drop)]
pub(crate) enum Listed {
    Trails(Vec<Trail>),
    Faulty(TrailFault),
    Unread,
}

// That fault, or 701 if there are more than 256 trails. `count` trails were read already; the rest of their list is read
// here.
fn faulty(
    alloc: Global,
    reader: &mut Reader<'_>,
    count: usize,
    fault: TrailFault,
) -> Result<Listed, AllocError>
    ensures { IfOk result (λ listed. IsLeftBehind reader.old count fault listed reader.new) }
{
    let mut count = count;
    while !reader.take_end_array() {
        let Some(_later) = value(alloc, reader, TRAIL_DEPTH)? else {
            return Ok(Listed::Unread);
        };
        count = count.saturating_add(1);
    }
    if count > MAX_TRAILS {
        return Ok(Listed::Faulty(TrailFault::NotTrail));
    }
    Ok(Listed::Faulty(fault))
}

// The trails up to the end of their list.
fn each_by_value(alloc: Global, reader: &mut Reader<'_>, limit: u32) -> Result<Listed, AllocError>
    ensures { IfOk result (λ listed. IsListed limit reader.old listed reader.new) }
{
    let mut trails = Vec::new(alloc);
    while !reader.take_end_array() {
        let Some(one) = value(alloc, reader, TRAIL_DEPTH)? else {
            return Ok(Listed::Unread);
        };
        if trails.len() == MAX_TRAILS {
            return faulty(alloc, reader, MAX_TRAILS + 1, TrailFault::NotTrail);
        }
        match trail_of_value(alloc, &one, limit) {
            Ok(trail) => trails.push(trail)?,
            Err(fault) => return faulty(alloc, reader, trails.len().saturating_add(1), fault),
        }
    }
    if trails.is_empty() {
        return Ok(Listed::Faulty(TrailFault::NotTrail));
    }
    Ok(Listed::Trails(trails))
}

// The trails of a text.
fn chain_by_values(alloc: Global, text: &str, limit: u32) -> Result<Listed, AllocError>
    ensures { IfOk result (λ listed. IsListedIn limit text.now listed) }
{
    let mut scratch = Scratch::new(alloc);
    let mut reader = Reader::new(text, &mut scratch)?;
    let Some(Token::BeginArray) = reader.next() else {
        return Ok(Listed::Unread);
    };
    let listed = each_by_value(alloc, &mut reader, limit)?;
    if reader.next().is_some() {
        return Ok(Listed::Unread);
    }
    Ok(listed)
}

// ---- from a value of the whole

fn trails_of_items(alloc: Global, items: &[Value], limit: u32) -> Result<Vec<Trail>, TrailFault>
    ensures ok { IfOk result (λ ts. AreEach limit (items_of_list (items_view items.now)) ts.items) }
    ensures fault { IfErr result (λ e. e ≢ TrailFault.Memory → IsFirstOf limit (items_of_list (items_view items.now)) e) }
{
    let mut trails = Vec::with_capacity(alloc, items.len())?;
    for item in items {
        match trail_of_value(alloc, item, limit) {
            Ok(trail) => trails.push_reserved(trail),
            Err(fault) => return Err(fault),
        }
    }
    Ok(trails)
}

fn chain_of_value(alloc: Global, value: &Value, limit: u32) -> Result<Vec<Trail>, TrailFault>
    ensures ok { IfOk result (λ ts. IsChain limit (chain_of (view value.now)) ts.items) }
    ensures fault { IfErr result (λ e. e ≢ TrailFault.Memory → IsFaultOfChain limit (chain_of (view value.now)) e) }
{
    match value.as_array() {
        Some(items) if !items.is_empty() && items.len() <= MAX_TRAILS => {
            trails_of_items(alloc, items, limit)
        }
        _ => Err(TrailFault::NotTrail),
    }
}

// The same as below, with a contract that uses only the definition of a chain's text.
fn chain_of_text(alloc: Global, text: &str, limit: u32) -> Result<Vec<Trail>, TrailFault>
    ensures ok { IfOk result (λ ts. IsChainText limit text.now ts.items) }
    ensures fault { IfErr result (λ e. e ≢ TrailFault.Memory → IsFirstChainFault limit text.now e) }
{
    if let Some(trails) = chain_in_order(alloc, text, limit)? {
        return Ok(trails);
    }
    match chain_by_values(alloc, text, limit)? {
        Listed::Trails(trails) => return Ok(trails),
        Listed::Faulty(fault) => return Err(fault),
        Listed::Unread => {}
    }
    match parse_text(alloc, text)? {
        Some(value) => chain_of_value(alloc, &value, limit),
        None => Err(TrailFault::NotTrail),
    }
}

/// The trails of a text: a list of 1 to 256 trails, each as `read_trail` reads one, of a tree of at most `limit` nodes.
///
/// The first fault: 701 if the text isn't such a list; otherwise what `read_trail` says about the first trail with a fault.
/// The records of one trail may have four fields and those of the next eight. 790 if memory is refused.
pub fn read_chain(alloc: Global, text: &str, limit: u32) -> Result<Vec<Trail>, TrailFault>
    // The trails that are read are those of the text.
    ensures ok { IfOk result (λ ts. IsChainText limit text.now ts.items) }
    // Which fault it is.
    ensures fault { IfErr result (λ e. e ≢ TrailFault.Memory → IsFirstChainFault limit text.now e) }
    // If the text has trails, they are read, unless memory is refused.
    ensures taken { (ts : List TrailValue) → IsChainText limit text.now ts
        → MatchResult result (λ r. r.items ≡ ts) (λ e. e ≡ TrailFault.Memory) }
{
    chain_of_text(alloc, text, limit)
}

// ---- as text

/// The text of a chain, with no spaces: a list of the texts that `write_trail` gives. 790 if memory is refused.
pub fn write_chain(alloc: Global, trails: &[Trail]) -> Result<String, TrailFault>
    ensures text { IfOk result (λ s. string_bytes s ≡ chain_text trails.now) }
    ensures reads_back { IfOk result (λ s. 1 ≤ length trails.now → length trails.now ≤ MAX_TRAILS
        → (limit : ℕ) → All (λ (t : TrailValue). length t.parents ≤ limit) trails.now → IsChainText limit (string_bytes s) trails.now) }
    ensures err { IfErr result (λ e. e ≡ TrailFault.Memory) }
{
    let mut text = String::new(alloc);
    text.push_str("[")?;
    for (number, trail) in trails.iter().enumerate() {
        if number > 0 {
            text.push_str(",")?;
        }
        push_trail(alloc, &mut text, trail)?;
    }
    text.push_str("]")?;
    Ok(text)
}
