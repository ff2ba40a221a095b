// Where the text of trails goes.

ghost use Rattle.std.specs.Prelude.{◌≡◌, List, ℕ, Option, IfErr, OnOk};
ghost use Rattle.tl_commands.specs.Sinks.{Adds, IsSinkFault};

use crate::fault::CliFault;

/// Takes the text of trails, piece by piece, so that the text of only one trail has to be in memory.
pub trait TrailSink {
    // The text that the sink has, if it is known.
    ghost text: { Self → Option (List ℕ) };

    // How often a piece couldn't be written.
    ghost failures: { Self → ℕ };

    /// Appends the piece. 32 if it can't be written, 990 if memory is refused.
    fn put(&mut self, piece: &str) -> Result<(), CliFault>
        ensures put { OnOk result (Adds (text self.old) piece.now (text self.new)) }
        ensures fine { OnOk result (failures self.new ≡ failures self.old) }
        ensures fault { IfErr result (λ e. IsSinkFault (failures self.old) (failures self.new) (e ≡ CliFault.Memory) e) };
}

impl TrailSink for String {
    ghost use Rattle.std.specs.Prelude.{Some, string_bytes};

    ghost text = { λ s. Some (string_bytes s) };

    ghost failures = { λ _. 0 };

    fn put(&mut self, piece: &str) -> Result<(), CliFault> {
        match self.push_str(piece) {
            Ok(()) => Ok(()),
            Err(_) => Err(CliFault::Memory),
        }
    }
}
