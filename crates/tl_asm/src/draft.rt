//! An instruction before its target is known.

use tl_instr::Instr;

/// An instruction with 0 as its target, and the label that is written there.
#[derive(Clone, Copy, Debug)]
pub struct Draft<'a> {
    pub instr: Instr,
    pub label: Option<&'a [u8]>,
}
