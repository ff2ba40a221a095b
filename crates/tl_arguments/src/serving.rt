// What the command `serve` takes.

use crate::arguments::{nodes, port, procedures, save, socket, trail_with};
use crate::rows::{Reading, Row};

/// What a server begins with.
pub(crate) fn store_rows() -> [Row; 7] {
    [
        Row::option(
            "tree",
            "T",
            "The file of the tree, as JSON; with --store, only where the store is made",
        )
        .required_unless([Some("store"), None, None]),
        Row::option(
            "store",
            "PATH",
            "The file that the tree, the procedures and the calls are stored in, or a folder of volumes, as `things/`: what was answered is found again after a crash",
        ),
        Row::option(
            "volume",
            "CALLS",
            "After how many calls a store in a folder goes on in a new volume, 1 to 16777216; 1048576 if not given",
        )
        .as_a(Reading::Calls),
        Row::option(
            "keys",
            "K",
            "How many closed volumes a start looks through for the keys of calls, 0 to 65535; 16 if not given",
        )
        .as_a(Reading::Number),
        Row::option(
            "snapshots",
            "FOLDER",
            "The folder that `treedb snapshot` has copies of the store written to",
        ),
        procedures(
            "Procedures to register first: all of a text of the procedure language, or as NAME the one of a `.tdb`, `.tlp` or assembler file; of a server that seals itself",
        ),
        nodes(),
    ]
}

/// Where a server listens.
pub(crate) fn address_rows() -> [Row; 3] {
    [
        port(
            "The port of this machine, 1 to 65535, or 0 for one that the system chooses; standard error says which",
        ).as_a(Reading::Number),
        socket("The file of a Unix socket in the place of the port"),
        Row::option(
            "mode",
            "OCTAL",
            "The permissions of the files of sockets and of a new store, three octal digits; if not given, 600 of sockets, the user of the server alone, and 644 of a store, less the umask",
        ),
    ]
}

/// Who is served: how many connections, how many at once, and for how long one may be silent.
pub(crate) fn connection_rows() -> [Row; 5] {
    [
        Row::option(
            "connections",
            "C",
            "How many connections are served in all, 1 to 65535; if not given, any number until the server is stopped",
        )
        .as_a(Reading::Positive)
        .required_with("seal", "by-hand"),
        Row::option(
            "at-once",
            "N",
            "How many connections may be open at once, 1 to 1024; if not given, 256, or 8 with --connections",
        )
        .as_a(Reading::Places),
        Row::option(
            "control",
            "P",
            "A second port of this machine, on which `treedb stop` asks the server to end; or 0, as with --port",
        )
        .as_a(Reading::Number)
        .required_unless([Some("connections"), Some("control-socket"), Some("store")])
        .excluding("control-socket"),
        Row::option(
            "control-socket",
            "PATH",
            "The file of a Unix socket in the place of that port",
        ),
        Row::option(
            "idle",
            "S",
            "After how many seconds a connection is ended that sends nothing or takes no answer",
        )
        .as_a(Reading::Positive),
    ]
}

/// Who follows what is stored.
pub(crate) fn following_rows() -> [Row; 3] {
    [
        Row::option(
            "follow",
            "P",
            "A third port of this machine, at which followers, as `treedb-mirror`, get what is stored; or 0, as with --port",
        )
        .as_a(Reading::Number)
        .excluding("follow-socket"),
        Row::option(
            "follow-socket",
            "PATH",
            "The file of a Unix socket in the place of that port",
        ),
        Row::option(
            "wait-for",
            "1",
            "Answers wait until a follower holds for good what they rest on",
        )
        .as_a(Reading::One),
    ]
}

/// How a server goes on when an epoch is full, and what it writes.
pub(crate) fn epoch_rows() -> [Row; 6] {
    [
        Row::option(
            "seal",
            "HOW",
            "Who seals an epoch that is full: its clients, `by-hand`, or the server, `itself`, as it does if --connections isn't given",
        ),
        Row::option(
            "generation",
            "G",
            "After how many epochs a server that seals itself begins a new generation, 1 to 128; 16 if not given",
        )
        .as_a(Reading::Epochs),
        Row::option(
            "trails",
            "FOLDER",
            "The folder that each generation's trails are written to, as 0.json, 1.json and so on",
        )
        .excluding("trail"),
        Row::flag(
            "frozen",
            "Refuses registering, replacing, appending and sealing on the port; the control still does that",
        ),
        trail_with("The file that the trail is written to, of a server whose clients seal"),
        save(),
    ]
}
