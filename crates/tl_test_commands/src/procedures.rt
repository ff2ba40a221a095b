//! What the commands `asm`, `dis` and `verify` print of texts.

mod bounds;
mod labels;
mod limits;
mod listings;
mod refused_heads;
mod refused_jumps;
mod refused_loops;
mod refused_nests;
mod refused_nodes;
mod refused_operands;

use crate::commands::Table;
use std::test::Fail;
use tl_asm::instruction_lines;

/// A text that differs from the one that is written for its code.
const SPACED: &str = "arity 1 ; one\n\nstart:\n  jmp  end_\nend_:\nret\n";

/// Another such text.
const ODD: &str =
    "; a comment; another\n\t\r\n arity\t8 ;\n\nset v3 -2147483648;no space\r\njeq v0 v15 end_\nstart: \nloop:;\njmp  end_\nkids v1 n7\ncopy v0 v1\nmul v0 v1 v2 else _\nsub v0 v1 v2 else start\nrep 65535\nend\njlt v1 v2 loop\nend_:\n_:";

/// The tables of these commands.
pub fn tables() -> [Table; 10] {
    [
        ("procedures, listings", listings::rows()),
        ("procedures, bounds", bounds::rows()),
        ("procedures, limits", limits::rows()),
        ("procedures, refused jumps", refused_jumps::rows()),
        ("procedures, refused nodes", refused_nodes::rows()),
        ("procedures, refused nests", refused_nests::rows()),
        ("procedures, refused loops", refused_loops::rows()),
        ("procedures, refused heads", refused_heads::rows()),
        ("procedures, labels", labels::rows()),
        ("procedures, refused operands", refused_operands::rows()),
    ]
}

#[test]
fn instructions_have_their_lines(rt: HostRuntime) -> Result<(), Fail> {
    let lines = instruction_lines(rt.alloc(), SPACED)?;
    assert_eq!(rt; lines.as_slice(), [4, 6].as_slice());
    Ok(())
}
