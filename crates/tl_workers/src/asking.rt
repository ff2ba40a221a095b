// What is asked of an engine.

ghost use Rattle.std.specs.Prelude.{◌≡◌, ◌≤◌, ◌↔◌, length, IsTrue};
ghost use Rattle.tl_instr.specs.declared.operand.TheConstants.{MAX_ARGS};
ghost use Rattle.tl_procedures.specs.declared.procedures.TheConstants.{MAX_NAME};
ghost use Rattle.tl_workers.specs.Kept.{asking};

use arrayvec::{ArrayString, ArrayVec};
use std::marker::Model;
use tl_instr::MAX_ARGS;
use tl_machine::copied;
use tl_procedures::MAX_NAME;

/// The name of a procedure: up to 32 bytes, which need no memory.
#[derive(Debug, Drop)]
pub struct Name {
    text: ArrayString<MAX_NAME>,
}

impl Model for Name {
    ghost use Rattle.std.specs.Prelude.{List, ℕ};

    ghost Value = { List ℕ };

    ghost view = { λ n. n.text.bytes };
}

impl Name {
    /// The text as a name.
    pub fn new(text: &str) -> Name
        requires { length text.now ≤ MAX_NAME }
        ensures { result ≡ text.now }
    {
        let Ok(text) = ArrayString::from(text) else {
            unreachable!()
        };
        Name { text }
    }

    /// The name as a text.
    pub fn as_str(&self) -> &str
        ensures same { result.now ≡ self.now }
        ensures short { length self.now ≤ MAX_NAME }
    {
        self.text.as_str()
    }

    /// The same again. Takes no memory.
    pub fn copy(&self) -> Name
        ensures { result ≡ self.now }
    {
        Name::new(self.as_str())
    }
}

/// The request of an admitted call, as plain data.
#[derive(Debug, Drop)]
pub struct Asking {
    /// The number of the epoch.
    pub epoch: u32,
    /// The number of the call in its epoch.
    pub call: u32,
    /// The name of its procedure.
    pub name: Name,
    /// Its arguments.
    pub args: ArrayVec<i64, MAX_ARGS>,
}

impl Asking {
    /// The request of an admitted call. Takes no memory.
    pub fn new(epoch: u32, call: u32, name: &str, args: &[i64]) -> Asking
        requires name { length name.now ≤ MAX_NAME }
        requires args { length args.now ≤ MAX_ARGS }
        ensures { result ≡ asking epoch call name.now args.now }
    {
        Asking {
            epoch,
            call,
            name: Name::new(name),
            args: copied(args),
        }
    }

    /// Whether this is call `call` of epoch `epoch`, of the procedure `name` with the arguments `args`.
    pub fn is(&self, epoch: u32, call: u32, name: &str, args: &[i64]) -> bool
        ensures { IsTrue result ↔ (self.now ≡ asking epoch call name.now args.now) }
    {
        if self.epoch != epoch {
            return false;
        }
        if self.call != call {
            return false;
        }
        if self.name.as_str() != name {
            return false;
        }
        self.args.as_slice() == args
    }
}
