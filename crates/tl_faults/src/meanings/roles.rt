// Written by `tools/faults` from `docs/use/faults.md`.

use crate::meanings::Meaning;

pub fn from_1101_to_1101(number: u16) -> Option<Meaning> {
    match number {
        1101 => Some(Meaning {
            parts: "",
            name: "frozen",
            when: "the server was started with `--frozen`: nobody registers or replaces procedures, appends nodes or seals through its port",
            advice: "ask its operator, who does it at the control, as by `treedb register`",
        }),
        _ => None,
    }
}
