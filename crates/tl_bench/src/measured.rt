// The time, the amount and the digest of a piece of work.

ghost use Rattle.std.specs.Prelude.{◌≡◌};

use crate::clock::now;

/// How long a piece of work took, how much it was, and a number that depends on all its results. A count of `u64::MAX` says that
/// the work was refused.
#[repr(C)]
#[derive(Clone, Copy, Debug, Drop)]
pub struct Measured {
    pub nanos: u64,
    pub count: u64,
    pub sum: u64,
}

impl Measured {
    pub fn none() -> Measured
        ensures { result ≡ record { nanos = 0; count = 0; sum = 0 } }
    {
        Measured {
            nanos: 0,
            count: 0,
            sum: 0,
        }
    }

    /// The measurement, or the one that says that the work was refused.
    pub fn or_refused(measured: Option<Measured>) -> Measured {
        match measured {
            Some(measured) => measured,
            None => Measured {
                nanos: 0,
                count: u64::MAX,
                sum: 0,
            },
        }
    }

    /// Adds the time since `begin`.
    pub fn add_since(&mut self, begin: u64) {
        self.nanos = self.nanos.wrapping_add(now().wrapping_sub(begin));
    }

    /// Adds to the amount of work.
    pub fn add_count(&mut self, count: u64) {
        self.count = self.count.wrapping_add(count);
    }

    /// Mixes a number into the digest of the results.
    pub fn mix(&mut self, number: u64) {
        self.sum = self.sum.rotate_left(5).wrapping_mul(0x9E37_79B9_7F4A_7C15) ^ number;
    }

    /// Mixes the length of the slice, and then each number.
    pub fn mix_all(&mut self, numbers: &[i64]) {
        self.mix(numbers.len() as u64);
        for number in numbers {
            self.mix(number.cast_unsigned());
        }
    }

    /// Mixes each byte.
    pub fn mix_bytes(&mut self, bytes: &[u8]) {
        for byte in bytes {
            self.mix(u64::from(*byte));
        }
    }
}
