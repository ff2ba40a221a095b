//! The instructions of a procedure, and the byte container that stores it.
#![tactic(auto)]

mod cell;
mod code;
mod container;
mod fault;
mod instr;
mod operand;
mod reading;
mod version;

pub use code::{Code, MAX_COUNT};
pub use container::{decode, encode, migrate_code, one_spelling};
pub use fault::CodeFault;
pub use instr::Instr;
pub use operand::{
    Arity, Field, MAX_ARGS, NODE_REGISTERS, NodeRegister, VALUE_REGISTERS, ValueRegister,
};
pub use version::Version;
