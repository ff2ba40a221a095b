// What a worker reports about the turns of a call.

/// Learns of a call's turns, outside the lock. A gate may hold the thread that calls it, as tests do.
pub trait Gate {
    /// Before turn number `turn` of the call, from 1.
    fn pass(&self, call: u32, turn: u64);

    /// After the call's local instructions of that turn, before they are submitted.
    fn ready(&self, _call: u32, _turn: u64) {}

    /// After the call's receipt.
    fn answered(&self, call: u32);
}

/// The gate that does nothing.
#[derive(Clone, Copy, Debug)]
pub struct NoGate;

impl Gate for NoGate {
    fn pass(&self, _call: u32, _turn: u64) {}

    fn answered(&self, _call: u32) {}
}
