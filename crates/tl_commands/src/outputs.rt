// What more than one command prints or writes.

ghost use Rattle.std.specs.Prelude.{◌≡◌, [], ◌∷◌, ◌++◌, false, map, string_bytes, IfOk, IfErr, OnOk};
ghost use Rattle.serde_json.specs.View.{view};
ghost use Rattle.serde_json.specs.Written.{has_float};
ghost use Rattle.tl_record.specs.Recording.{trail_value};
ghost use Rattle.tl_tree.specs.Writing.{tree_text};
ghost use Rattle.tl_tree_locking.specs.History.{AllDone};
ghost use Rattle.tl_table.specs.Tables.{IsChain};
ghost use Rattle.tl_trail.specs.Chains.{chain_text};
ghost use Rattle.tl_trail.specs.Clean.{Clean};
ghost use Rattle.tl_trail.specs.Writing.{trail_text};
ghost use Rattle.tl_commands.specs.Faults.{status_of};
ghost use Rattle.tl_commands.specs.Sinks.{Adds, IsSinkFault, AreClean, FilesTrails, comma_before, epoch_trail};
ghost use Rattle.tl_commands.specs.Scripted.{lines_text, two_lines_text};

use crate::fault::CliFault;
use crate::sink::TrailSink;
use serde_json::Value;
use std::alloc::{AllocError, Global};
use tl_core::Core;
use tl_record::trail_of;
use tl_table::Closed;
use tl_trail::write_trail;
use tl_tree::{Tree, write_tree};

/// Ends the line, and adds others.
pub fn next_lines(text: &mut String, lines: &str) -> Result<(), AllocError>
    ensures { OnOk result (string_bytes text.new ≡ string_bytes text.old ++ 10 ∷ lines.now) }
{
    text.push_str("\n")?;
    text.push_str(lines)
}

/// The text of a tree, as a file: its line, and a line feed. 190 or 990 if memory is refused.
pub fn tree_file(alloc: Global, tree: &Tree) -> Result<String, CliFault>
    ensures ok { IfOk result (λ s. string_bytes s ≡ tree_text tree.now ++ 10 ∷ []) }
    ensures err { IfErr result (λ e. status_of e ≡ 4) }
{
    let mut text = write_tree(alloc, tree).map_err(CliFault::Tree)?;
    text.push_str("\n")?;
    Ok(text)
}

/// Two lines: a value, and a tree.
pub fn two_lines(alloc: Global, value: &Value, tree: &Tree) -> Result<String, CliFault>
    ensures ok { IfOk result (λ s. has_float (view value.now) ≡ false → string_bytes s ≡ two_lines_text (view value.now) tree.now) }
    ensures err { IfErr result (λ e. status_of e ≡ 4) }
{
    let tree = match write_tree(alloc, tree) {
        Ok(tree) => tree,
        Err(fault) => return Err(CliFault::Tree(fault)),
    };
    let mut text = value.to_string(alloc)?;
    next_lines(&mut text, &tree)?;
    text.push_str("\n")?;
    Ok(text)
}

/// Three lines: two values, and a tree.
pub fn three_lines(
    alloc: Global,
    first: &Value,
    second: &Value,
    tree: &Tree,
) -> Result<String, CliFault>
    ensures ok { IfOk result (λ s. has_float (view first.now) ≡ false → has_float (view second.now) ≡ false → string_bytes s ≡ lines_text (view first.now) (view second.now) tree.now) }
    ensures err { IfErr result (λ e. status_of e ≡ 4) }
{
    let lines = two_lines(alloc, second, tree)?;
    let mut text = first.to_string(alloc)?;
    next_lines(&mut text, &lines)?;
    Ok(text)
}

// The text of the core's trail, which is clean once all calls are done.
fn trail_of_core(alloc: Global, core: &Core) -> Result<String, CliFault>
    ensures ok { IfOk result (λ s. string_bytes s ≡ trail_text (trail_value core.now.seen)) }
    ensures clean { OnOk result (AllDone core.now.seen.past → Clean (trail_value core.now.seen)) }
    ensures err { IfErr result (λ e. status_of e ≡ 4) }
{
    let trail = trail_of(alloc, core).map_err(CliFault::Trail)?;
    write_trail(alloc, &trail).map_err(CliFault::Trail)
}

/// The text of the core's trail, as a file.
pub fn trail_file(alloc: Global, core: &Core) -> Result<String, CliFault>
    ensures ok { IfOk result (λ s. string_bytes s ≡ trail_text (trail_value core.now.seen) ++ 10 ∷ []) }
    ensures err { IfErr result (λ e. status_of e ≡ 4) }
{
    let mut text = trail_of_core(alloc, core)?;
    text.push_str("\n")?;
    Ok(text)
}

// Appends the trail of an epoch.
fn put_trail<S: TrailSink>(alloc: Global, closed: &Closed, sink: &mut S) -> Result<(), CliFault>
    ensures put { OnOk result (Adds (S.text sink.old) (trail_text (epoch_trail closed.now)) (S.text sink.new)) }
    ensures clean { OnOk result (Clean (epoch_trail closed.now)) }
    ensures fine { OnOk result (S.failures sink.new ≡ S.failures sink.old) }
    ensures fault { IfErr result (λ e. IsSinkFault (S.failures sink.old) (S.failures sink.new) (status_of e ≡ 4) e) }
{
    let text = trail_of_core(alloc, closed.core())?;
    sink.put(&text)
}

// Appends a comma, except before the first trail.
fn put_comma<S: TrailSink>(number: usize, sink: &mut S) -> Result<(), CliFault>
    ensures put { OnOk result (Adds (S.text sink.old) (comma_before number) (S.text sink.new)) }
    ensures fine { OnOk result (S.failures sink.new ≡ S.failures sink.old) }
    ensures fault { IfErr result (λ e. IsSinkFault (S.failures sink.old) (S.failures sink.new) (e ≡ CliFault.Memory) e) }
{
    if number == 0 {
        return Ok(());
    }
    sink.put(",")
}

// Appends the list of the epochs' trails.
fn put_list<S: TrailSink>(alloc: Global, chain: &[Closed], sink: &mut S) -> Result<(), CliFault>
    ensures put { OnOk result (Adds (S.text sink.old) (chain_text (map epoch_trail chain.now)) (S.text sink.new)) }
    ensures clean { OnOk result (AreClean chain.now) }
    ensures fine { OnOk result (S.failures sink.new ≡ S.failures sink.old) }
    ensures fault { IfErr result (λ e. IsSinkFault (S.failures sink.old) (S.failures sink.new) (status_of e ≡ 4) e) }
{
    sink.put("[")?;
    for (number, closed) in chain.iter().enumerate() {
        put_comma(number, sink)?;
        put_trail(alloc, closed, sink)?;
    }
    sink.put("]")
}

/// Appends the file of a closed table's trails: the text of the one trail, or the list of all, and a line feed. The text of
/// only one trail is in memory at a time. An auditor finds nothing wrong with them.
pub fn put_trails<S: TrailSink>(
    alloc: Global,
    chain: &[Closed],
    sink: &mut S,
) -> Result<(), CliFault>
    requires { IsChain chain.now }
    ensures put { OnOk result (FilesTrails chain.now (S.text sink.old) (S.text sink.new)) }
    ensures fine { OnOk result (S.failures sink.new ≡ S.failures sink.old) }
    ensures fault { IfErr result (λ e. IsSinkFault (S.failures sink.old) (S.failures sink.new) (status_of e ≡ 4) e) }
{
    match chain {
        [closed] => put_trail(alloc, closed, sink)?,
        _ => put_list(alloc, chain, sink)?,
    }
    sink.put("\n")
}
