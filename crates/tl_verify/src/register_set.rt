// Sets of node registers.

use std::marker::Model;
use tl_instr::NodeRegister;

/// A set of node registers. A contract sees, for each register, whether it is in the set.
#[derive(Clone, Copy, Debug)]
pub struct RegisterSet {
    // The lowest bit is that of register 0.
    bits: u8,
}

impl Model for RegisterSet {
    ghost use Rattle.std.specs.Prelude.{ℕ, ◌<◌, List, Bool};
    ghost use Rattle.tl_verify.specs.Bits.{bits_of, number_of, number_of_bits};

    ghost Value = { List Bool };

    ghost view = { λ s. bits_of 8 s.bits };

    ghost invariant = { λ s. s.bits < 256 };

    ghost inverse = { λ bs. record { bits = number_of bs } };

    ghost inverse_ok = { λ s h i. record { bits = number_of_bits 8 s.bits h i } };
}

impl PartialEq for RegisterSet {
    ghost use Rattle.std.specs.Bool.{beq};
    ghost use Rattle.std.specs.Cmp.{partial_equiv_from_equiv, bool_eq_equiv};
    ghost use Rattle.std.specs.Cmp.Lexicographic.{pointwise, lists_equiv};

    ghost eq = { pointwise beq };

    ghost laws = { partial_equiv_from_equiv (lists_equiv bool_eq_equiv) };

    #[inline(always)]
    fn eq(&self, other: &RegisterSet) -> bool {
        self.bits == other.bits
    }
}

impl Eq for RegisterSet {
    ghost use Rattle.std.specs.Cmp.{bool_eq_equiv};
    ghost use Rattle.std.specs.Cmp.Lexicographic.{lists_equiv};

    ghost laws = { lists_equiv bool_eq_equiv };
}

impl RegisterSet {
    ghost use Rattle.std.specs.Prelude.{◌≡◌, slice_set, get_or, true, false};
    ghost use Rattle.tl_verify.specs.Pass.{first_held};

    /// The empty set.
    pub const EMPTY: RegisterSet = RegisterSet { bits: 0 };

    /// Whether the register is in the set.
    #[inline(always)]
    pub fn has(self, register: NodeRegister) -> bool
        ensures { result ≡ get_or self register false }
    {
        self.bits & (1 << register.number()) != 0
    }

    /// The set with that register too.
    #[inline(always)]
    pub fn with(self, register: NodeRegister) -> RegisterSet
        ensures { result ≡ slice_set self register true }
    {
        RegisterSet {
            bits: self.bits | 1 << register.number(),
        }
    }

    /// The set without that register.
    #[inline(always)]
    pub fn without(self, register: NodeRegister) -> RegisterSet
        ensures { result ≡ slice_set self register false }
    {
        RegisterSet {
            bits: self.bits & !(1 << register.number()),
        }
    }

    /// The least register of the set, or `None` if it is empty.
    #[inline(always)]
    pub fn first(self) -> Option<u8>
        ensures { result ≡ first_held self 0 }
    {
        if self.bits == 0 {
            return None;
        }
        Some(self.bits.trailing_zeros() as u8)
    }
}
