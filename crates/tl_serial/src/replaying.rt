// The calls of an order, run again.

ghost use Rattle.std.specs.Prelude.{◌≡◌, ◌<◌, All, IfOk, IfErr, length};
ghost use Rattle.tl_tree_locking.specs.Alone.{serial};
ghost use Rattle.tl_core.specs.Cores.{world_of};

use std::alloc::Global;
use tl_core::Core;
use tl_machine::{Reply, alone};
use tl_serial_order::{Order, SerialFault};
use tl_tree::Tree;

/// Runs the calls of the order alone, one after another, from the opening tree. Returns the tree that they leave, and their
/// replies in that order. The core stays as it is. 690 if memory is refused.
pub fn replay(alloc: Global, order: &Order, core: &Core) -> Result<(Tree, Vec<Reply>), SerialFault>
    requires { All (λ c. c < length core.now.seen.calls) order.now.calls }
    ensures tree { IfOk result (λ r. r.0 ≡ record {
      parents = core.now.seen.parents;
      records = (serial (world_of core.now.seen).meanings order.now.calls core.now.seen.opening).tree;
    }) }
    ensures replies { IfOk result (λ r. r.1.items
        ≡ (serial (world_of core.now.seen).meanings order.now.calls core.now.seen.opening).replies) }
    ensures err { IfErr result (λ e. e ≡ SerialFault.Memory) }
{
    let Ok(mut tree) = core.opening().copy(alloc) else {
        return Err(SerialFault::Memory);
    };
    let calls = order.calls();
    let mut replies = Vec::with_capacity(alloc, calls.len())?;
    for call in calls {
        replies.push_reserved(run_again(core, *call, &mut tree));
    }
    Ok((tree, replies))
}

// Runs a call of the core alone on the tree, and returns its reply.
fn run_again(core: &Core, call: u32, tree: &mut Tree) -> Reply
    requires known { call < length core.now.seen.calls }
    requires shape { tree.old.parents ≡ core.now.seen.parents }
    ensures tree { tree.new ≡ record tree.old { records = ((world_of core.now.seen).meanings call tree.old.records).tree } }
    ensures reply { result ≡ ((world_of core.now.seen).meanings call tree.old.records).reply }
{
    let (procedure, args) = core.request(call);
    let Ok(answer) = alone(core.proc(procedure), args, tree) else {
        unreachable!()
    };
    answer.reply
}
