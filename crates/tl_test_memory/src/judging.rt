// What is concluded from calls. Each question is asked once more if memory is refused.

ghost use Rattle.std.specs.Prelude.{◌<◌, ◌≤◌, All, IfOk, length};
ghost use Rattle.tl_table.specs.Tables.{IsChain};
ghost use Rattle.tl_trail.specs.declared.chain.TheConstants.{MAX_TRAILS};

use crate::halt::Halt;
use std::alloc::Global;
use tl_audit::{AuditFault, ChainFault, MAX_TRAILS, audit, audit_chain};
use tl_core::Core;
use tl_machine::Reply;
use tl_record::trail_of;
use tl_serial::{Order, Running, SerialFault, replay};
use tl_table::{Closed, conclude_all};
use tl_trail::Trail;
use tl_tree::{Record, Tree};

/// Prints the order of the running calls, the records they leave and their replies as they run again along that order; or which
/// call is unfinished.
pub fn conclude(rt: &impl Print, alloc: Global, running: &Running) -> Result<(), Halt> {
    match concluded(alloc, running) {
        Ok(order) => {
            print_order(rt, "concluded", order.calls())?;
            let (tree, replies) = replayed(alloc, &order, running.core())?;
            print_records(rt, tree.records())?;
            print_replies(rt, order.calls(), &replies)
        }
        Err(SerialFault::Unfinished { call }) => {
            println!(rt; "call {call} isn't done")?;
            Ok(())
        }
        Err(SerialFault::Memory) => Err(Halt::Refused),
    }
}

fn concluded(alloc: Global, running: &Running) -> Result<Order, SerialFault>
    ensures { IfOk result (λ o. All (λ c. c < length running.now.seen.calls) o.calls) }
{
    match running.conclude(alloc) {
        Err(SerialFault::Memory) => running.conclude(alloc),
        answer => answer,
    }
}

fn replayed(alloc: Global, order: &Order, core: &Core) -> Result<(Tree, Vec<Reply>), Halt>
    requires { All (λ c. c < length core.now.seen.calls) order.now.calls }
{
    if let Ok(replayed) = replay(alloc, order, core) {
        return Ok(replayed);
    }
    replay(alloc, order, core).map_err(|_| Halt::Refused)
}

/// Prints the result of an audit of the core's trail.
pub fn judge(rt: &impl Print, alloc: Global, core: &Core) -> Result<(), Halt> {
    let trail = trail(alloc, core)?;
    match audited(alloc, &trail) {
        Ok(order) => print_order(rt, "audited", order.calls()),
        Err(AuditFault::Memory) => Err(Halt::Refused),
        Err(fault) => {
            println!(rt; "audited: {fault}")?;
            Ok(())
        }
    }
}

/// Prints the result of an audit of the chain of these epochs' trails, and the orders that are concluded for all epochs together.
pub fn judge_all(rt: &impl Print, alloc: Global, chain: &[Closed]) -> Result<(), Halt>
    requires { IsChain chain.now }
{
    for order in &concluded_of_all(alloc, chain)? {
        print_order(rt, "concluded of all", order.calls())?;
    }
    let trails = trails(alloc, chain)?;
    if trails.is_empty() || trails.len() > MAX_TRAILS {
        return Err(Halt::Changed);
    }
    match audited_chain(alloc, &trails) {
        Ok(orders) => {
            for order in &orders {
                print_order(rt, "audited in the chain", order.calls())?;
            }
            Ok(())
        }
        Err(ChainFault::Memory) => Err(Halt::Refused),
        Err(fault) => {
            println!(rt; "audited: {fault}")?;
            Ok(())
        }
    }
}

fn concluded_of_all(alloc: Global, chain: &[Closed]) -> Result<Vec<Order>, Halt>
    requires { IsChain chain.now }
{
    if let Ok(orders) = conclude_all(alloc, chain) {
        return Ok(orders);
    }
    conclude_all(alloc, chain).map_err(|_| Halt::Refused)
}

fn trails(alloc: Global, chain: &[Closed]) -> Result<Vec<Trail>, Halt> {
    let mut trails = room_for(alloc, chain.len())?;
    for closed in chain {
        if trails.push(trail(alloc, closed.core())?).is_err() {
            return Err(Halt::Refused);
        }
    }
    Ok(trails)
}

fn room_for(alloc: Global, count: usize) -> Result<Vec<Trail>, Halt> {
    if let Ok(room) = Vec::with_capacity(alloc, count) {
        return Ok(room);
    }
    Vec::with_capacity(alloc, count).map_err(|_| Halt::Refused)
}

fn audited_chain(alloc: Global, trails: &[Trail]) -> Result<Vec<Order>, ChainFault>
    requires some { 0 < length trails.now }
    requires few { length trails.now ≤ MAX_TRAILS }
{
    match audit_chain(alloc, trails) {
        Err(ChainFault::Memory) => audit_chain(alloc, trails),
        answer => answer,
    }
}

fn trail(alloc: Global, core: &Core) -> Result<Trail, Halt> {
    if let Ok(trail) = trail_of(alloc, core) {
        return Ok(trail);
    }
    trail_of(alloc, core).map_err(|_| Halt::Refused)
}

fn audited(alloc: Global, trail: &Trail) -> Result<Order, AuditFault> {
    match audit(alloc, trail) {
        Err(AuditFault::Memory) => audit(alloc, trail),
        answer => answer,
    }
}

/// Prints an order.
pub fn print_order(rt: &impl Print, whose: &str, calls: &[u32]) -> Result<(), Halt> {
    println!(rt; "{whose}: {calls:?}")?;
    Ok(())
}

/// Prints the records of a tree.
pub fn print_records(rt: &impl Print, records: &[Record]) -> Result<(), Halt> {
    for record in records {
        println!(rt; "record {record:?}")?;
    }
    Ok(())
}

fn print_replies(rt: &impl Print, calls: &[u32], replies: &[Reply]) -> Result<(), Halt> {
    for (call, reply) in calls.iter().zip(replies) {
        let values = reply.values();
        println!(rt; "call {call} replies {values:?}")?;
    }
    Ok(())
}
