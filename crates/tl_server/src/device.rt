// Where lines come from, and where answers go.

ghost use Rattle.std.specs.Prelude.{◌≡◌, ◌≤◌, ◌<◌, ◌+◌, ℕ, List, [], Option, Some, take, drop, length, IfOk, OnErr, OnOk};
ghost use Rattle.tl_server.specs.Devices.{Gives, HasEnded, Adds, AddsPart};

/// A device failed.
#[derive(Clone, Copy, PartialEq, Eq, Debug)]
pub struct Failure;

/// Where lines come from.
pub trait Source {
    // The bytes still to come, if they are known.
    ghost input: { Self → Option (List ℕ) };

    // How often it has failed.
    ghost failures: { Self → ℕ };

    /// Reads some bytes into the buffer, which isn't empty, and says how many. 0 is the end of input.
    fn read(&mut self, buffer: &mut [u8]) -> Result<usize, Failure>
        requires { 0 < length buffer.old }
        ensures count { IfOk result (λ n. n ≤ length buffer.new) }
        ensures bytes { IfOk result (λ n. Gives (input self.old) (take n buffer.new) (input self.new)) }
        ensures end { result ≡ Ok 0 → HasEnded (input self.old) }
        ensures fine { OnOk result (failures self.new ≡ failures self.old) }
        ensures failed { OnErr result ((failures self.new ≡ failures self.old + 1) × (input self.new ≡ input self.old)) };
}

/// Where answers go.
pub trait Sink {
    // What was written, if it is known.
    ghost output: { Self → Option (List ℕ) };

    // How often it has failed.
    ghost failures: { Self → ℕ };

    /// Writes some of a text that isn't empty, at least one byte, and says how many.
    fn write(&mut self, text: &[u8]) -> Result<usize, Failure>
        requires { 0 < length text.now }
        ensures count { IfOk result (λ n. (0 < n) × (n ≤ length text.now)) }
        ensures bytes { IfOk result (λ n. Adds (output self.old) (take n text.now) (output self.new)) }
        ensures fine { OnOk result (failures self.new ≡ failures self.old) }
        ensures failed { OnErr result ((failures self.new ≡ failures self.old + 1) × (output self.new ≡ output self.old)) };
}

/// Bytes in memory, which come in pieces of at most `size`.
#[derive(Debug, Drop)]
pub struct Bytes<'a> {
    left: &'a [u8],
    size: usize,
    ghost some: { 0 < size },
}

impl<'a> Bytes<'a> {
    /// A source of these bytes, in pieces of at most `size`, which is at least 1.
    pub fn new(left: &'a [u8], size: usize) -> Bytes<'a>
        requires { 0 < size }
        ensures { (result.left.now ≡ left.now) × (result.size ≡ size) }
    {
        Bytes { left, size }
    }
}

impl<'a> Source for Bytes<'a> {
    ghost input = { λ s. Some s.left.now };

    ghost failures = { λ _. 0 };

    fn read(&mut self, buffer: &mut [u8]) -> Result<usize, Failure> {
        let count = self.size.min(buffer.len()).min(self.left.len());
        let (now, later) = self.left.split_at(count);
        buffer[..count].copy_from_slice(now);
        self.left = later;
        Ok(count)
    }
}

/// Writes all of a text, or a beginning of it if the sink fails.
pub(crate) fn write_all<K: Sink>(sink: &mut K, text: &[u8]) -> Result<(), Failure>
    ensures ok { OnOk result (Adds (K.output sink.old) text.now (K.output sink.new)) }
    ensures fine { OnOk result (K.failures sink.new ≡ K.failures sink.old) }
    ensures err { OnErr result (AddsPart (K.output sink.old) text.now (K.output sink.new)) }
    ensures failed { OnErr result (K.failures sink.new ≡ K.failures sink.old + 1) }
{
    let mut left = text;
    while !left.is_empty() {
        let count = sink.write(left)?;
        let (_, later) = left.split_at(count);
        left = later;
    }
    Ok(())
}
