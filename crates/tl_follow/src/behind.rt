// The rows behind a position.

ghost use Rattle.std.specs.Prelude.{◌≡◌, ◌≢◌, ◌+◌, ◌≤◌, ◌<◌, ◌^◌, ◌↔◌, [], ◌∷◌, pos, map, take, length, Err, IsTrue, IfOk, IfErr, OnOk};
ghost use Rattle.sqlite_trees.specs.View.{IsClean, IsQuiet, KeepsSchema};
ghost use Rattle.tl_ledger.specs.Contents.{OnlyReads, Contents, Holds, AreTables};
ghost use Rattle.tl_ledger.specs.News.{IsMarked, node_columns, seal_columns};
ghost use Rattle.tl_follow.specs.Positions.{IsUpTo, HasAsMany, IsNext, AreBetween, between, seal_at};
ghost use Rattle.tl_follow.specs.declared.fault.FollowFault.TheVariants.{NotThere};

use crate::fault::FollowFault;
use crate::rows::Rows;
use sqlite_trees::store::Store;
use std::alloc::Global;
use tl_ledger::{CALL, Marks, NODE, NodeRow, PROCEDURE, REPLY, SEAL, SealRow, TURN, read_some};

// Whether no table has fewer rows before the second position.
fn is_up_to(from: &Marks, to: &Marks) -> bool
    ensures { IsTrue result ↔ IsUpTo from.now to.now }
{
    from.nodes <= to.nodes
        && from.procedures <= to.procedures
        && from.calls <= to.calls
        && from.turns <= to.turns
        && from.replies <= to.replies
        && from.seals <= to.seals
}

// A count of rows, as a column has it.
fn count_of(column: i64) -> Result<u64, FollowFault>
    ensures count { IfOk result (λ n. column ≡ pos n) }
    ensures fault { IfErr result (λ e. e ≡ NotThere) }
{
    match u64::try_from(column) {
        Ok(count) => Ok(count),
        Err(_) => Err(FollowFault::NotThere),
    }
}

// The position behind the next seal, up to which there are so many nodes.
fn behind_seal(from: &Marks, nodes: u64, seal: &SealRow) -> Result<Marks, FollowFault>
    requires { from.now.seals + 1 < 2 ^ 64 }
    ensures seals { IfOk result (λ to. to.seals ≡ from.now.seals + 1) }
    ensures nodes { IfOk result (λ to. to.nodes ≡ nodes) }
    ensures counts { IfOk result (λ to. seal.now ≡ seal_at to) }
    ensures fault { IfErr result (λ e. e ≡ NotThere) }
{
    Ok(Marks {
        nodes,
        procedures: count_of(seal.procedures)?,
        calls: count_of(seal.calls)?,
        turns: count_of(seal.turns)?,
        replies: count_of(seal.replies)?,
        seals: from.seals + 1,
    })
}

// How many of these nodes come before the first that was there only from that epoch on.
fn count_before(nodes: &[NodeRow], epoch: u64) -> usize
    ensures { result ≤ length nodes.now }
{
    for index in 0..nodes.len() {
        match u64::try_from(nodes[index].epoch) {
            Ok(since) if since < epoch => {}
            _ => return index,
        }
    }
    nodes.len()
}

// Those of these nodes that come before the first that was there only from that epoch on.
fn known_before(nodes: Vec<NodeRow>, epoch: u64) -> Vec<NodeRow>
    ensures first { result.items ≡ take (length result.items) nodes.items }
    ensures within { length result.items ≤ length nodes.items }
{
    let mut nodes = nodes;
    let count = count_before(&nodes, epoch);
    nodes.truncate(count);
    nodes
}

// Up to which node there are these behind a position.
fn number_behind(from: &Marks, stored: &Marks, nodes: &[NodeRow]) -> u64
    requires { from.now.nodes + length nodes.now ≤ stored.now.nodes }
    ensures { result ≡ from.now.nodes + length nodes.now }
{
    // So many nodes have numbers.
    let last = stored.nodes;
    last.min(from.nodes + nodes.len() as u64)
}

// The row of the seal with that number.
fn seal_behind<S: Store>(
    alloc: Global,
    store: &mut S,
    number: u64,
    next: u64,
    stored: &Marks,
) -> Result<SealRow, FollowFault>
    requires tables { IsClean (S.Store.view store.old) → AreTables (S.Store.view store.old) }
    requires some { number < stored.now.seals }
    requires next { next ≡ number + 1 }
    ensures seal { IfOk result (λ seal. IsClean (S.Store.view store.new) → (c : Contents) → Holds (S.Store.view store.old).trees c
        → IsMarked c stored.now → between number next (c SEAL) ≡ seal_columns seal ∷ []) }
    ensures reads { OnOk result (IsClean (S.Store.view store.new) → OnlyReads (S.Store.view store.old) (S.Store.view store.new)) }
    ensures schema { KeepsSchema (S.Store.view store.old) (S.Store.view store.new) }
    ensures quiet { IsQuiet S.Store.view S.Store.faults S.Store.recovers S.Store.is_shielded store.old store.new }
    ensures fault { result ≢ Err NotThere }
{
    let seals: Vec<SealRow> = read_some(alloc, store, SEAL, number, next)?;
    Ok(seals[0])
}

// The rows of nodes behind a position, where there are so many.
fn nodes_behind<S: Store>(
    alloc: Global,
    store: &mut S,
    from: &Marks,
    stored: &Marks,
) -> Result<Vec<NodeRow>, FollowFault>
    requires tables { IsClean (S.Store.view store.old) → AreTables (S.Store.view store.old) }
    requires order { from.now.nodes ≤ stored.now.nodes }
    ensures nodes { IfOk result (λ v. IsClean (S.Store.view store.new) → (c : Contents) → Holds (S.Store.view store.old).trees c → IsMarked c stored.now
        → map node_columns v.items ≡ between from.now.nodes stored.now.nodes (c NODE)) }
    ensures count { IfOk result (λ v. from.now.nodes + length v.items ≡ stored.now.nodes) }
    ensures reads { OnOk result (IsClean (S.Store.view store.new) → OnlyReads (S.Store.view store.old) (S.Store.view store.new)) }
    ensures schema { KeepsSchema (S.Store.view store.old) (S.Store.view store.new) }
    ensures quiet { IsQuiet S.Store.view S.Store.faults S.Store.recovers S.Store.is_shielded store.old store.new }
    ensures fault { result ≢ Err NotThere }
{
    let nodes = read_some(alloc, store, NODE, from.nodes, stored.nodes)?;
    Ok(nodes)
}

// The rows of the other tables, up to a position.
fn read_others<S: Store>(
    alloc: Global,
    store: &mut S,
    from: &Marks,
    to: Marks,
    nodes: Vec<NodeRow>,
) -> Result<Rows, FollowFault>
    requires tables { IsClean (S.Store.view store.old) → AreTables (S.Store.view store.old) }
    requires order { IsUpTo from.now to }
    ensures to { IfOk result (λ r. r.to ≡ to) }
    ensures rows { IfOk result (λ r. IsClean (S.Store.view store.new) → (c : Contents) → Holds (S.Store.view store.old).trees c → HasAsMany c to
        → map node_columns nodes.items ≡ between from.now.nodes to.nodes (c NODE) → AreBetween c from.now r.to r) }
    ensures fault { result ≢ Err NotThere }
    ensures reads { OnOk result (IsClean (S.Store.view store.new) → OnlyReads (S.Store.view store.old) (S.Store.view store.new)) }
    ensures schema { KeepsSchema (S.Store.view store.old) (S.Store.view store.new) }
    ensures quiet { IsQuiet S.Store.view S.Store.faults S.Store.recovers S.Store.is_shielded store.old store.new }
{
    Ok(Rows {
        nodes,
        procedures: read_some(alloc, store, PROCEDURE, from.procedures, to.procedures)?,
        calls: read_some(alloc, store, CALL, from.calls, to.calls)?,
        turns: read_some(alloc, store, TURN, from.turns, to.turns)?,
        replies: read_some(alloc, store, REPLY, from.replies, to.replies)?,
        seals: read_some(alloc, store, SEAL, from.seals, to.seals)?,
        to,
    })
}

// Up to which position rows are read next: behind the next seal if there is one, or behind all that is stored; and the nodes up to there.
fn next_position<S: Store>(
    alloc: Global,
    store: &mut S,
    stored: &Marks,
    from: &Marks,
) -> Result<(Marks, Vec<NodeRow>), FollowFault>
    requires tables { IsClean (S.Store.view store.old) → AreTables (S.Store.view store.old) }
    requires order { IsUpTo from.now stored.now }
    ensures order { IfOk result (λ r. IsUpTo from.now r.0 × IsUpTo r.0 stored.now) }
    ensures next { IfOk result (λ r. IsClean (S.Store.view store.new) → (c : Contents) → Holds (S.Store.view store.old).trees c → IsMarked c stored.now
        → IsNext c stored.now from.now r.0) }
    ensures nodes { IfOk result (λ r. IsClean (S.Store.view store.new) → (c : Contents) → Holds (S.Store.view store.old).trees c → IsMarked c stored.now
        → map node_columns r.1.items ≡ between from.now.nodes r.0.nodes (c NODE)) }
    ensures reads { OnOk result (IsClean (S.Store.view store.new) → OnlyReads (S.Store.view store.old) (S.Store.view store.new)) }
    ensures still { result ≡ Err NotThere → IsClean (S.Store.view store.new) → OnlyReads (S.Store.view store.old) (S.Store.view store.new) }
    ensures schema { KeepsSchema (S.Store.view store.old) (S.Store.view store.new) }
    ensures quiet { IsQuiet S.Store.view S.Store.faults S.Store.recovers S.Store.is_shielded store.old store.new }
{
    let all = nodes_behind(alloc, store, from, stored)?;
    if from.seals >= stored.seals {
        return Ok((*stored, all));
    }
    let next = from.seals + 1;
    let seal = seal_behind(alloc, store, from.seals, next, stored)?;
    // Those that came at the beginning of a later epoch come behind the seal.
    let nodes = known_before(all, next);
    let to = behind_seal(from, number_behind(from, stored, &nodes), &seal)?;
    if !is_up_to(from, &to) || !is_up_to(&to, stored) {
        return Err(FollowFault::NotThere);
    }
    Ok((to, nodes))
}

/// The rows that a store has behind a position, where it has as many rows as `stored` says: up to the next seal behind the position, or all of them if
/// there is no seal behind it. Both are positions at which a core can be made of the rows before. An error if the position isn't one of the store.
pub fn rows_behind<S: Store>(
    alloc: Global,
    store: &mut S,
    stored: &Marks,
    from: &Marks,
) -> Result<Rows, FollowFault>
    requires tables { IsClean (S.Store.view store.old) → AreTables (S.Store.view store.old) }
    ensures order { IfOk result (λ r. IsUpTo from.now r.to × IsUpTo r.to stored.now) }
    ensures next { IfOk result (λ r. IsClean (S.Store.view store.new) → (c : Contents) → Holds (S.Store.view store.old).trees c → IsMarked c stored.now
        → IsNext c stored.now from.now r.to) }
    ensures rows { IfOk result (λ r. IsClean (S.Store.view store.new) → (c : Contents) → Holds (S.Store.view store.old).trees c → IsMarked c stored.now
        → AreBetween c from.now r.to r) }
    ensures reads { OnOk result (IsClean (S.Store.view store.new) → OnlyReads (S.Store.view store.old) (S.Store.view store.new)) }
    ensures still { result ≡ Err NotThere → IsClean (S.Store.view store.new) → OnlyReads (S.Store.view store.old) (S.Store.view store.new) }
    ensures schema { KeepsSchema (S.Store.view store.old) (S.Store.view store.new) }
    ensures quiet { IsQuiet S.Store.view S.Store.faults S.Store.recovers S.Store.is_shielded store.old store.new }
{
    if !is_up_to(from, stored) {
        return Err(FollowFault::NotThere);
    }
    let (to, nodes) = next_position(alloc, store, stored, from)?;
    read_others(alloc, store, from, to, nodes)
}
