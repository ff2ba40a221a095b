// The command `check`, for people who write a procedure: from its text or its container to its bounds.

ghost use Rattle.std.specs.Prelude.{◌≡◌, true, false, string_bytes, IfOk, IfErr};
ghost use Rattle.tl_commands.specs.Procedures.{is_container, Verifies, IsFirstVerifyingFault, VerifiesText, IsFirstCheckingFault};

use crate::fault::CliFault;
use crate::procedures::{bounds_line, code_of_text, verify_cmd};
use std::alloc::Global;
use tl_verify::verify;

// The line for the bounds of an assembler text's procedure.
fn check_text(alloc: Global, text: &[u8]) -> Result<String, CliFault>
    ensures printed { IfOk result (λ s. VerifiesText text.now (string_bytes s)) }
    ensures fault { IfErr result (λ e. IsFirstCheckingFault text.now e) }
{
    let code = code_of_text(alloc, text)?;
    match verify(alloc, code) {
        Ok(procedure) => Ok(bounds_line(alloc, procedure.bounds())?),
        Err((_, fault)) => Err(CliFault::Verify(fault)),
    }
}

/// The line for the bounds of a procedure. Takes the bytes of a container's file, or of an assembler text's: a container
/// begins with `TLP`, and no text does.
///
/// Otherwise the first fault of the text or the container, 255, 251 to 254, or 201 to 206; or the verifier's, 301 to 307
/// and 401 to 409. If memory was refused, 290, 490 or 990.
pub fn check_cmd(alloc: Global, file: &[u8]) -> Result<String, CliFault>
    ensures container { is_container file.now ≡ true → IfOk result (λ s. Verifies file.now (string_bytes s)) × IfErr result (λ e. IsFirstVerifyingFault file.now e) }
    ensures text { is_container file.now ≡ false → IfOk result (λ s. VerifiesText file.now (string_bytes s)) × IfErr result (λ e. IsFirstCheckingFault file.now e) }
{
    if file.starts_with(b"TLP") {
        verify_cmd(alloc, file)
    } else {
        check_text(alloc, file)
    }
}
