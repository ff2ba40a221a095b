// Measurements.

use tl_core::Core;

/// How long the calls took, how many were done, and a number that depends on the records, the replies and how many events there
/// were.
#[derive(Clone, Copy, Debug, Drop)]
pub struct Measured {
    pub nanos: u64,
    pub calls: u64,
    pub sum: u64,
}

impl Measured {
    /// Nothing yet.
    pub fn none() -> Measured {
        Measured {
            nanos: 0,
            calls: 0,
            sum: 0,
        }
    }

    /// Adds the time of a core's calls, and mixes all their results.
    pub fn add(&mut self, nanos: u64, core: &Core) {
        self.nanos = self.nanos.saturating_add(nanos);
        self.calls = self.calls.saturating_add(core.calls() as u64);
        self.mix_core(core);
    }

    fn mix(&mut self, number: u64) {
        self.sum = self.sum.rotate_left(5).wrapping_mul(0x9E37_79B9_7F4A_7C15) ^ number;
    }

    // Mixes all results of the core. Which of two calls on one node comes first is chance, so the replies are added up.
    fn mix_core(&mut self, core: &Core) {
        for record in core.tree().records() {
            for field in record {
                self.mix(field.cast_unsigned());
            }
        }
        self.mix(sum_of_replies(core));
        self.mix(core.history().len() as u64);
    }
}

fn sum_of_replies(core: &Core) -> u64 {
    let mut sum = 0u64;
    for call in 0..core.calls() as u32 {
        if let Some(reply) = core.reply(call) {
            for value in reply.values() {
                sum = sum.wrapping_add(value.cast_unsigned());
            }
        }
    }
    sum
}
