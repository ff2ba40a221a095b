//! What the commands `dis` and `verify` print of containers. Each byte of these containers is below 128, so each is a text too.

use crate::commands::Command::{Bounds, Dis};
use crate::commands::Row;
use crate::texts::ADD;

/// The head of the container of `ADD`, and its instructions.
const HEAD: &str = "TLP1\x02\0\0\x07";

const FIRST: &str = "\x0C\0\0\0\0\0\0\x06";

const GET: &str = "\x10\x02\0\0\0\0\0\0";

const SUM: &str = "\x03\x02\x02\x01\0\0\0\x04";

const PUT: &str = "\x11\0\0\x02\0\0\0\0";

const EMIT: &str = "\x13\x02\0\0\0\0\0\0";

const REL: &str = "\x0F\0\0\0\0\0\0\0";

const RET: &str = "\x14\0\0\0\0\0\0\0";

/// The last instruction 64 times, and its text 64 times.
const RETS_64: &str =
    "\x14\0\0\0\0\0\0\0\x14\0\0\0\0\0\0\0\x14\0\0\0\0\0\0\0\x14\0\0\0\0\0\0\0\x14\0\0\0\0\0\0\0\x14\0\0\0\0\0\0\0\x14\0\0\0\0\0\0\0\x14\0\0\0\0\0\0\0\x14\0\0\0\0\0\0\0\x14\0\0\0\0\0\0\0\x14\0\0\0\0\0\0\0\x14\0\0\0\0\0\0\0\x14\0\0\0\0\0\0\0\x14\0\0\0\0\0\0\0\x14\0\0\0\0\0\0\0\x14\0\0\0\0\0\0\0\x14\0\0\0\0\0\0\0\x14\0\0\0\0\0\0\0\x14\0\0\0\0\0\0\0\x14\0\0\0\0\0\0\0\x14\0\0\0\0\0\0\0\x14\0\0\0\0\0\0\0\x14\0\0\0\0\0\0\0\x14\0\0\0\0\0\0\0\x14\0\0\0\0\0\0\0\x14\0\0\0\0\0\0\0\x14\0\0\0\0\0\0\0\x14\0\0\0\0\0\0\0\x14\0\0\0\0\0\0\0\x14\0\0\0\0\0\0\0\x14\0\0\0\0\0\0\0\x14\0\0\0\0\0\0\0\x14\0\0\0\0\0\0\0\x14\0\0\0\0\0\0\0\x14\0\0\0\0\0\0\0\x14\0\0\0\0\0\0\0\x14\0\0\0\0\0\0\0\x14\0\0\0\0\0\0\0\x14\0\0\0\0\0\0\0\x14\0\0\0\0\0\0\0\x14\0\0\0\0\0\0\0\x14\0\0\0\0\0\0\0\x14\0\0\0\0\0\0\0\x14\0\0\0\0\0\0\0\x14\0\0\0\0\0\0\0\x14\0\0\0\0\0\0\0\x14\0\0\0\0\0\0\0\x14\0\0\0\0\0\0\0\x14\0\0\0\0\0\0\0\x14\0\0\0\0\0\0\0\x14\0\0\0\0\0\0\0\x14\0\0\0\0\0\0\0\x14\0\0\0\0\0\0\0\x14\0\0\0\0\0\0\0\x14\0\0\0\0\0\0\0\x14\0\0\0\0\0\0\0\x14\0\0\0\0\0\0\0\x14\0\0\0\0\0\0\0\x14\0\0\0\0\0\0\0\x14\0\0\0\0\0\0\0\x14\0\0\0\0\0\0\0\x14\0\0\0\0\0\0\0\x14\0\0\0\0\0\0\0\x14\0\0\0\0\0\0\0";

const TEXT_64: &str =
    "ret\nret\nret\nret\nret\nret\nret\nret\nret\nret\nret\nret\nret\nret\nret\nret\nret\nret\nret\nret\nret\nret\nret\nret\nret\nret\nret\nret\nret\nret\nret\nret\nret\nret\nret\nret\nret\nret\nret\nret\nret\nret\nret\nret\nret\nret\nret\nret\nret\nret\nret\nret\nret\nret\nret\nret\nret\nret\nret\nret\nret\nret\nret\nret\n";

/// The text, the first fault or the bounds.
const ROWS: &[Row] = &[
    (Dis(&[HEAD, FIRST, GET, SUM, PUT, EMIT, REL, RET]), &[ADD]),
    (
        Bounds(&[HEAD, FIRST, GET, SUM, PUT, EMIT, REL, RET]),
        &["{\"bounds\":{\"emits\":1,\"locks\":1,\"steps\":7}}\n"],
    ),
    // Prefixes of a container, and one with bytes after its end.
    (Dis(&[]), &["[201] 1"]),
    (Dis(&["TLP"]), &["[201] 1"]),
    (Dis(&["TLP1\x02\0\0"]), &["[202] 1"]),
    (Dis(&[HEAD]), &["[202] 1"]),
    (
        Dis(&[HEAD, FIRST, GET, SUM, PUT, EMIT, REL, "\x14\0\0\0\0\0\0"]),
        &["[202] 1"],
    ),
    (
        Dis(&[HEAD, FIRST, GET, SUM, PUT, EMIT, REL, RET, "\0"]),
        &["[202] 1"],
    ),
    // Other bytes in the head.
    (
        Dis(&["ULP1\x02\0\0\x07", FIRST, GET, SUM, PUT, EMIT, REL, RET]),
        &["[201] 1"],
    ),
    (
        Dis(&["TLP1\x08\0\0\x07", FIRST, GET, SUM, PUT, EMIT, REL, RET]),
        &[
            "arity 8\nfirst n0 v0 else L6\nget v2 n0 0\nadd v2 v2 v1 else L4\nput n0 0 v2\nL4:\nemit v2\nrel n0\nL6:\nret\n",
        ],
    ),
    (
        Dis(&["TLP1\x09\0\0\x07", FIRST, GET, SUM, PUT, EMIT, REL, RET]),
        &["[206] 1"],
    ),
    (
        Dis(&["TLP1\x02\x01\0\x07", FIRST, GET, SUM, PUT, EMIT, REL, RET]),
        &["[206] 1"],
    ),
    (Dis(&["TLP1\x02\0\0\0"]), &["[205] 1"]),
    (
        Dis(&["TLP1\x02\0\x04\x07", FIRST, GET, SUM, PUT, EMIT, REL, RET]),
        &["[205] 1"],
    ),
    (
        Dis(&["TLP1\x02\0\0\x06", FIRST, GET, SUM, PUT, EMIT, REL, RET]),
        &["[202] 1"],
    ),
    (
        Dis(&["TLP1\x02\0\0\x08", FIRST, GET, SUM, PUT, EMIT, REL, RET]),
        &["[202] 1"],
    ),
    // Other bytes in an instruction.
    (
        Dis(&[HEAD, "\x0C\0\0\0\0\0\0\x07", GET, SUM, PUT, EMIT, REL, RET]),
        &[
            "arity 2\nfirst n0 v0 else L7\nget v2 n0 0\nadd v2 v2 v1 else L4\nput n0 0 v2\nL4:\nemit v2\nrel n0\nret\nL7:\n",
        ],
    ),
    (
        Dis(&[HEAD, "\x0C\0\0\0\0\0\0\x08", GET, SUM, PUT, EMIT, REL, RET]),
        &["[204, 0] 1"],
    ),
    (
        Dis(&[
            HEAD,
            FIRST,
            "\x15\x02\0\0\0\0\0\0",
            SUM,
            PUT,
            EMIT,
            REL,
            RET,
        ]),
        &["[203, 1] 1"],
    ),
    (
        Dis(&[
            HEAD,
            FIRST,
            GET,
            "\x03\x10\x02\x01\0\0\0\x04",
            PUT,
            EMIT,
            REL,
            RET,
        ]),
        &["[204, 2] 1"],
    ),
    (
        Dis(&[HEAD, FIRST, GET, SUM, PUT, EMIT, REL, "\0\0\0\0\0\0\0\0"]),
        &["[203, 6] 1"],
    ),
    (
        Dis(&[
            HEAD,
            FIRST,
            GET,
            SUM,
            PUT,
            EMIT,
            REL,
            "\x14\x01\0\0\0\0\0\0",
        ]),
        &["[204, 6] 1"],
    ),
    // As many instructions as a code may have, and one more: after a head that counts 1,024, and after one that counts 1,025.
    (
        Dis(&[
            "TLP1\0\0\x04\0",
            RETS_64,
            RETS_64,
            RETS_64,
            RETS_64,
            RETS_64,
            RETS_64,
            RETS_64,
            RETS_64,
            RETS_64,
            RETS_64,
            RETS_64,
            RETS_64,
            RETS_64,
            RETS_64,
            RETS_64,
            RETS_64,
        ]),
        &[
            "arity 0\n",
            TEXT_64,
            TEXT_64,
            TEXT_64,
            TEXT_64,
            TEXT_64,
            TEXT_64,
            TEXT_64,
            TEXT_64,
            TEXT_64,
            TEXT_64,
            TEXT_64,
            TEXT_64,
            TEXT_64,
            TEXT_64,
            TEXT_64,
            TEXT_64,
        ],
    ),
    (
        Bounds(&[
            "TLP1\0\0\x04\0",
            RETS_64,
            RETS_64,
            RETS_64,
            RETS_64,
            RETS_64,
            RETS_64,
            RETS_64,
            RETS_64,
            RETS_64,
            RETS_64,
            RETS_64,
            RETS_64,
            RETS_64,
            RETS_64,
            RETS_64,
            RETS_64,
        ]),
        &["{\"bounds\":{\"emits\":0,\"locks\":0,\"steps\":1024}}\n"],
    ),
    (
        Dis(&[
            "TLP1\0\0\x04\0",
            RETS_64,
            RETS_64,
            RETS_64,
            RETS_64,
            RETS_64,
            RETS_64,
            RETS_64,
            RETS_64,
            RETS_64,
            RETS_64,
            RETS_64,
            RETS_64,
            RETS_64,
            RETS_64,
            RETS_64,
            RETS_64,
            RET,
        ]),
        &["[202] 1"],
    ),
    (
        Dis(&[
            "TLP1\0\0\x04\x01",
            RETS_64,
            RETS_64,
            RETS_64,
            RETS_64,
            RETS_64,
            RETS_64,
            RETS_64,
            RETS_64,
            RETS_64,
            RETS_64,
            RETS_64,
            RETS_64,
            RETS_64,
            RETS_64,
            RETS_64,
            RETS_64,
            RET,
        ]),
        &["[205] 1"],
    ),
];

/// The rows of this table.
pub fn rows() -> &'static [Row] {
    ROWS
}
