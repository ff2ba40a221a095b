// The procedure of a script that is refused.

use crate::{CliFault, check_cmd};
use serde_json::Value;
use std::alloc::Global;
use tl_json::parse;

/// A procedure of a script that isn't accepted: its name, its assembler text, and what is wrong with it.
#[derive(Drop)]
pub struct RefusedProcedure {
    pub name: String,
    pub text: String,
    pub fault: CliFault,
}

// The procedure of a pair `[name,text]`, if it isn't accepted.
fn refused_in_pair(alloc: Global, pair: &Value) -> Option<RefusedProcedure> {
    let name = String::from_str(alloc, pair.get(0)?.as_str()?).ok()?;
    let text = String::from_str(alloc, pair.get(1)?.as_str()?).ok()?;
    let Err(fault) = check_cmd(alloc, text.as_bytes()) else {
        return None;
    };
    Some(RefusedProcedure { name, text, fault })
}

/// The first procedure of a script that isn't accepted. `None` if there is none, or memory is refused: this is for a
/// message.
pub fn first_refused(alloc: Global, script: &[u8]) -> Option<RefusedProcedure> {
    let value = parse(alloc, script).ok()??;
    let list = value.get("procs")?.as_array()?;
    list.iter().find_map(|pair| refused_in_pair(alloc, pair))
}
