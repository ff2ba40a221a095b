// Code that is written from its end to its start.

ghost use Rattle.std.specs.Prelude.{◌≡◌, [], ◌∷◌, ◌<◌, length, reverse, OnOk};
ghost use Rattle.tl_instr.specs.declared.instr.Instr.TheVariants.{Jump};
ghost use Rattle.tl_instr.specs.declared.operand.TheConstants.{VALUE_REGISTERS, NODE_REGISTERS};

use crate::node_set::NodeSet;
use std::alloc::{AllocError, Global};
use tl_instr::{Instr, NODE_REGISTERS, NodeRegister, ValueRegister};

/// A place in a code: how many instructions there are from it to the end.
#[derive(Clone, Copy, Debug, PartialEq, Eq)]
pub struct Label(pub usize);

impl Label {
    ghost use Rattle.tl_compiler.specs.Labels.{target_of};

    /// The label as a jump's target. If it doesn't fit, the code is too long.
    pub fn target(self) -> u16
        ensures { result ≡ target_of self.0 }
    {
        match u16::try_from(self.0) {
            Ok(target) => target,
            Err(_) => u16::MAX,
        }
    }
}

/// The instructions so far, the last one first, each with the offset of the statement in the text that it belongs to. A target is
/// a label.
#[derive(Drop)]
pub struct Draft {
    pub instrs: Vec<Instr>,
    pub origins: Vec<usize>,
}

/// The value register of that number.
pub fn value_register(number: usize) -> ValueRegister
    requires { number < VALUE_REGISTERS }
    ensures { result ≡ number }
{
    match ValueRegister::new(number as u8) {
        Some(register) => register,
        None => unreachable!(),
    }
}

/// The node register of that number.
pub fn node_register(number: usize) -> NodeRegister
    requires { number < NODE_REGISTERS }
    ensures { result ≡ number }
{
    match NodeRegister::new(number as u8) {
        Some(register) => register,
        None => unreachable!(),
    }
}

impl Draft {
    ghost use Rattle.tl_compiler.specs.Labels.{target_of};
    ghost use Rattle.tl_compiler.specs.NodeSets.{nodes_of};
    ghost use Rattle.tl_compiler.specs.Statements.{release_code};

    pub fn new(alloc: Global) -> Draft
        ensures { result.instrs.items ≡ [] }
    {
        Draft {
            instrs: Vec::new(alloc),
            origins: Vec::new(alloc),
        }
    }

    /// The place before all instructions that were written.
    #[tactic(auto, using(crate::proofs::CodeLemmas::as_many))]
    pub fn here(&self) -> Label
        ensures { result.0 ≡ length (reverse self.now.instrs.items) }
    {
        Label(self.instrs.len())
    }

    /// Puts one more instruction before the others.
    #[tactic(auto, using(crate::proofs::CodeLemmas::pushed))]
    pub fn put(&mut self, origin: usize, instr: Instr) -> Result<(), AllocError>
        ensures { OnOk result (reverse self.new.instrs.items ≡ instr ∷ reverse self.old.instrs.items) }
    {
        self.origins.push(origin)?;
        self.instrs.push(instr)?;
        Ok(())
    }

    pub fn jump(&mut self, origin: usize, label: Label) -> Result<(), AllocError>
        ensures { OnOk result (reverse self.new.instrs.items ≡ Jump (target_of label.0) ∷ reverse self.old.instrs.items) }
    {
        let target = label.target();
        self.put(origin, Instr::Jump { target })
    }

    /// Frees these registers, the highest first.
    pub fn release(&mut self, origin: usize, nodes: NodeSet) -> Result<(), AllocError>
        ensures { OnOk result (reverse self.new.instrs.items ≡ release_code (nodes_of nodes) (reverse self.old.instrs.items)) }
    {
        for number in 0..NODE_REGISTERS as u8 {
            let Some(node) = NodeRegister::new(number) else {
                break;
            };
            if nodes.contains(node) {
                self.put(origin, Instr::Release { node })?;
            }
        }
        Ok(())
    }
}
