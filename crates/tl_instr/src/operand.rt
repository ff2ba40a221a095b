// The operands of instructions: numbers that are always in range.

ghost use Rattle.std.specs.Prelude.{◌≡◌, ℕ, ◌<◌, ◌≤◌, ◌↔◌, IsSome, IfSome};
ghost use Rattle.tl_width.specs.Fields.{field_count};

use std::marker::Model;
use tl_width::FIELD_COUNT;

/// How many value registers a call has.
pub const VALUE_REGISTERS: usize = 16;

/// How many node registers a call has.
pub const NODE_REGISTERS: usize = 8;

/// A value register, `v0` to `v15`.
#[derive(Clone, Copy, Debug, PartialEq, Eq)]
pub struct ValueRegister {
    number: u8,
}

impl Model for ValueRegister {
    ghost use Rattle.std.specs.Prelude.{ℕ, ◌<◌};
    ghost use Rattle.tl_instr.specs.declared.operand.TheConstants.{VALUE_REGISTERS};

    ghost Value = { ℕ };

    ghost view = { λ r. r.number };

    ghost invariant = { λ r. r.number < VALUE_REGISTERS };

    ghost inverse = { λ n. record { number = n } };
}

impl ValueRegister {
    /// The register with that number, or `None` from 16 on.
    pub fn new(number: u8) -> Option<Self>
        ensures valid { IsSome result ↔ (number < VALUE_REGISTERS) }
        ensures value { IfSome result (λ r. r ≡ number) }
    {
        if usize::from(number) < VALUE_REGISTERS {
            Some(ValueRegister { number })
        } else {
            None
        }
    }

    pub fn number(self) -> u8
        ensures same { result ≡ self }
        ensures in_range { result < VALUE_REGISTERS }
    {
        self.number
    }

    /// The number, as an index into the registers.
    pub fn index(self) -> usize
        ensures same { result ≡ self }
        ensures in_range { result < VALUE_REGISTERS }
    {
        usize::from(self.number)
    }
}

/// A node register, `n0` to `n7`.
#[derive(Clone, Copy, Debug, PartialEq, Eq)]
pub struct NodeRegister {
    number: u8,
}

impl Model for NodeRegister {
    ghost use Rattle.std.specs.Prelude.{ℕ, ◌<◌};
    ghost use Rattle.tl_instr.specs.declared.operand.TheConstants.{NODE_REGISTERS};

    ghost Value = { ℕ };

    ghost view = { λ r. r.number };

    ghost invariant = { λ r. r.number < NODE_REGISTERS };

    ghost inverse = { λ n. record { number = n } };
}

impl NodeRegister {
    /// The register with that number, or `None` from 8 on.
    pub fn new(number: u8) -> Option<Self>
        ensures valid { IsSome result ↔ (number < NODE_REGISTERS) }
        ensures value { IfSome result (λ r. r ≡ number) }
    {
        if usize::from(number) < NODE_REGISTERS {
            Some(NodeRegister { number })
        } else {
            None
        }
    }

    pub fn number(self) -> u8
        ensures same { result ≡ self }
        ensures in_range { result < NODE_REGISTERS }
    {
        self.number
    }

    /// The number, as an index into the registers.
    pub fn index(self) -> usize
        ensures same { result ≡ self }
        ensures in_range { result < NODE_REGISTERS }
    {
        usize::from(self.number)
    }
}

/// A field of a record, 0 to 7.
#[derive(Clone, Copy, Debug, PartialEq, Eq)]
pub struct Field {
    number: u8,
}

impl Model for Field {
    ghost Value = { ℕ };

    ghost view = { λ f. f.number };

    ghost invariant = { λ f. f.number < field_count };

    ghost inverse = { λ n. record { number = n } };
}

impl Field {
    /// The field with that number, or `None` if there is no such field.
    pub fn new(number: u8) -> Option<Self>
        ensures valid { IsSome result ↔ (number < field_count) }
        ensures value { IfSome result (λ f. f ≡ number) }
    {
        if usize::from(number) < FIELD_COUNT {
            Some(Field { number })
        } else {
            None
        }
    }

    pub fn number(self) -> u8
        ensures same { result ≡ self }
        ensures in_range { result < field_count }
    {
        self.number
    }

    /// The number, as an index into a record.
    pub fn index(self) -> usize
        ensures same { result ≡ self }
        ensures in_range { result < field_count }
    {
        usize::from(self.number)
    }
}

/// The most arguments that a procedure takes.
pub const MAX_ARGS: usize = 8;

/// How many arguments a procedure takes, 0 to 8.
#[derive(Clone, Copy, Debug, PartialEq, Eq)]
pub struct Arity {
    number: u8,
}

impl Model for Arity {
    ghost use Rattle.std.specs.Prelude.{ℕ, ◌≤◌};
    ghost use Rattle.tl_instr.specs.declared.operand.TheConstants.{MAX_ARGS};

    ghost Value = { ℕ };

    ghost view = { λ a. a.number };

    ghost invariant = { λ a. a.number ≤ MAX_ARGS };

    ghost inverse = { λ n. record { number = n } };
}

impl Arity {
    /// The arity with that number, or `None` above 8.
    pub fn new(number: u8) -> Option<Self>
        ensures valid { IsSome result ↔ (number ≤ MAX_ARGS) }
        ensures value { IfSome result (λ a. a ≡ number) }
    {
        if usize::from(number) <= MAX_ARGS {
            Some(Arity { number })
        } else {
            None
        }
    }

    pub fn number(self) -> u8
        ensures same { result ≡ self }
        ensures in_range { result ≤ MAX_ARGS }
    {
        self.number
    }
}
