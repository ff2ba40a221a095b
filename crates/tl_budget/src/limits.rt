// What a procedure may cost.

/// The most loops that may nest in one another.
pub const MAX_DEPTH: usize = 4;

/// The most instructions that a call does.
pub const MAX_STEPS: u32 = 1_000_000;

/// The most nodes that a call locks.
pub const MAX_LOCKS: u16 = 4_096;

/// The most values that a call emits.
pub const MAX_EMITS: usize = 32;

/// The most that a call does, whatever its arguments and the tree.
#[derive(Clone, Copy, Debug, PartialEq, Eq)]
pub struct Bounds {
    /// How many instructions, up to 1,000,000.
    pub steps: u32,
    /// How many nodes it locks, up to 4,096.
    pub locks: u16,
    /// How many values it emits, up to 32.
    pub emits: u8,
}
