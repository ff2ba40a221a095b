// What instructions do with held nodes.

ghost use Rattle.std.specs.Prelude.{◌≡◌, ℕ, List, ◌+◌, length, get_or, None};
ghost use Rattle.tl_instr.specs.declared.instr.Instr.TheVariants as instr;
ghost use Rattle.tl_tree.specs.Records.{Records};
ghost use Rattle.tl_machine.specs.Alone.{effect};
ghost use Rattle.tl_machine.specs.declared.call.HeldNode.{HeldNode as HeldNode'};
ghost use Rattle.tl_machine.specs.Call.{in_tree, held_view, Distinct, AreIn, AreCounted, IsHeld, Takes, MayGoOn, with_control};

use crate::call::{CallState, Control};
use tl_instr::{Field, NodeRegister, ValueRegister};
use tl_tree_locking::Action;

/// `get`
#[inline(always)]
pub fn get(
    call: &mut CallState,
    at: &mut Control,
    to: ValueRegister,
    node: NodeRegister,
    field: Field,
) -> Action
    requires node { (h : HeldNode') × IsHeld call.old.nodes node h }
    requires distinct { Distinct (held_view call.old.nodes) }
    requires on { MayGoOn (with_control call.old at.old) }
    ensures { (parents : List ℕ) (t : Records) → AreIn (length t) (held_view call.old.nodes) → Takes (effect parents (instr.Get to node field) at.old.position (in_tree call.old t)) (with_control call.old at.old) result (with_control call.new at.new) t }
{
    let Some(held) = &call.nodes[node.index()] else {
        unreachable!()
    };
    let number = held.node;
    let value = held.record[field.index()];
    call.values[to.index()] = value;
    at.go_to(at.position + 1);
    Action::Read {
        node: number,
        field: field.number(),
        value,
    }
}

/// `put`
#[inline(always)]
pub fn put(
    call: &mut CallState,
    at: &mut Control,
    node: NodeRegister,
    field: Field,
    from: ValueRegister,
) -> Action
    requires node { (h : HeldNode') × IsHeld call.old.nodes node h }
    requires distinct { Distinct (held_view call.old.nodes) }
    requires on { MayGoOn (with_control call.old at.old) }
    ensures { (parents : List ℕ) (t : Records) → AreIn (length t) (held_view call.old.nodes) → Takes (effect parents (instr.Put node field from) at.old.position (in_tree call.old t)) (with_control call.old at.old) result (with_control call.new at.new) t }
{
    let value = call.values[from.index()];
    let Some(held) = &mut call.nodes[node.index()] else {
        unreachable!()
    };
    let number = held.node;
    held.record[field.index()] = value;
    at.go_to(at.position + 1);
    Action::Write {
        node: number,
        field: field.number(),
        value,
    }
}

/// `kids`
#[inline(always)]
pub fn kids(call: &mut CallState, at: &mut Control, to: ValueRegister, node: NodeRegister) -> Action
    requires node { (h : HeldNode') × IsHeld call.old.nodes node h }
    requires on { MayGoOn (with_control call.old at.old) }
    ensures { (parents : List ℕ) (t : Records) → AreCounted parents call.old.nodes → Takes (effect parents (instr.Kids to node) at.old.position (in_tree call.old t)) (with_control call.old at.old) result (with_control call.new at.new) t }
{
    let Some(held) = &call.nodes[node.index()] else {
        unreachable!()
    };
    call.values[to.index()] = i64::from(held.child_count);
    at.go_to(at.position + 1);
    Action::Plain
}

/// `move`
#[inline(always)]
pub fn move_node(
    call: &mut CallState,
    at: &mut Control,
    to: NodeRegister,
    from: NodeRegister,
) -> Action
    requires node { (h : HeldNode') × IsHeld call.old.nodes from h }
    requires empty { get_or call.old.nodes to None ≡ None }
    requires distinct { Distinct (held_view call.old.nodes) }
    requires on { MayGoOn (with_control call.old at.old) }
    ensures { (parents : List ℕ) (t : Records) → Takes (effect parents (instr.Move to from) at.old.position (in_tree call.old t)) (with_control call.old at.old) result (with_control call.new at.new) t }
{
    let held = call.nodes[from.index()];
    call.nodes[from.index()] = None;
    call.nodes[to.index()] = held;
    at.go_to(at.position + 1);
    Action::Plain
}
