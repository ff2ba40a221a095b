// Written by `tools/faults` from `docs/use/faults.md`.

use crate::meanings::Meaning;

pub fn from_1001_to_1014(number: u16) -> Option<Meaning> {
    match number {
        1001 => Some(Meaning {
            parts: ", reason",
            name: "store not opened",
            when: "the store's file can't be opened or made: the reason is 1 for its rights or its folder's, 2 where there is no such folder, 3 where it is no regular file or has a second name, 4 where SQLite left a journal beside it, 5 where its file system has no locks, 6 for what the system says else",
            advice: "look at the path and its rights; where there is a journal, open the file once with `sqlite3`",
        }),
        1002 => Some(Meaning {
            parts: "",
            name: "store in use",
            when: "another program has the store open",
            advice: "end that program: a store has one server",
        }),
        1003 => Some(Meaning {
            parts: ", table",
            name: "not a store",
            when: "the table has a row of another form: 0 node, 1 record, 2 procedure, 3 call, 4 turn, 5 reply, 6 seal; 9: the file has other tables",
            advice: "no server leaves such a file; name another one, or take back what was changed in it",
        }),
        1004 => Some(Meaning {
            parts: ", turn",
            name: "turn of no call",
            when: "a stored turn, counted from the last seal, is of a call that isn't stored",
            advice: "no server leaves such a file; take back what was changed in it",
        }),
        1005 => Some(Meaning {
            parts: ", turn",
            name: "turn that can't be",
            when: "a stored turn, counted from the last seal, is of a call that is over, that waits for another, or that wasn't admitted",
            advice: "no server leaves such a file; take back what was changed in it",
        }),
        1006 => Some(Meaning {
            parts: ", call",
            name: "another reply",
            when: "the stored reply isn't that of the call, taken again",
            advice: "no server leaves such a file; take back what was changed in it",
        }),
        1007 => Some(Meaning {
            parts: ", node",
            name: "another record",
            when: "the record of this node at the last seal isn't that of the calls taken again; of `export` and `audit`",
            advice: "no server leaves such a file; take back what was changed in `record`, or in a call",
        }),
        1008 => Some(Meaning {
            parts: "",
            name: "no store",
            when: "there is no store of this name, and no `--tree` to make one of",
            advice: "look at the name, or say by `--tree` what the store begins with",
        }),
        1009 => Some(Meaning {
            parts: "",
            name: "store and tree",
            when: "there is a store, which has a tree, and `--tree` names another",
            advice: "leave out `--tree`, or name another file",
        }),
        1010 => Some(Meaning {
            parts: "",
            name: "no copy's name",
            when: "a copy can't have that name, or there is a file of that name; of `snapshot`",
            advice: "1 to 64 ASCII letters, digits, `_` or `-`, and then `.db`; another name for each copy",
        }),
        1011 => Some(Meaning {
            parts: "",
            name: "disk failed",
            when: "the disk failed while the store was read or written; what wasn't answered may be there or not",
            advice: "look at the disk, and start the server again: it finds all that was answered",
        }),
        1012 => Some(Meaning {
            parts: "",
            name: "disk full",
            when: "the disk has no room for the store; what wasn't answered may be there or not",
            advice: "make room, and start the server again: it finds all that was answered",
        }),
        1013 => Some(Meaning {
            parts: "",
            name: "file damaged",
            when: "a page of the store's file isn't what was written",
            advice: "take a copy from before",
        }),
        1014 => Some(Meaning {
            parts: "",
            name: "other store",
            when: "the store doesn't have what the server's engines did, seen at a hand-over or at the end; or a copy doesn't have as many rows as the store counts, and isn't there",
            advice: "look at the disks: one of them gave back what wasn't written",
        }),
        _ => None,
    }
}

pub fn from_1015_to_1090(number: u16) -> Option<Meaning> {
    match number {
        1015 => Some(Meaning {
            parts: "",
            name: "no keys",
            when: "the call has a key, and the server keeps no store, so it would forget the key at its end",
            advice: "start the server with `--store`, or ask without a key",
        }),
        1018 => Some(Meaning {
            parts: ", form",
            name: "newer store",
            when: "a newer version of treedb made the store, in a form that this one doesn't know; the file stays as it is",
            advice: "take that version, or a newer one",
        }),
        1019 => Some(Meaning {
            parts: "",
            name: "stray log",
            when: "a log lies beside a closed volume of a store, whose own was taken into it; nothing is read or changed",
            advice: "remove `N.db-wal`, if it is of another store; look at who put it there",
        }),
        1020 => Some(Meaning {
            parts: ", volume",
            name: "seam of volumes",
            when: "`audit` or `export` of a store in volumes: the volume isn't the file that SHA256SUMS lists, or doesn't go on where the one before ended",
            advice: "put the file back from a copy: a closed volume never changes",
        }),
        1021 => Some(Meaning {
            parts: "",
            name: "no such position",
            when: "a follower's position isn't one of the store: that was put back to an earlier copy, is another one, or hasn't the volume any more",
            advice: "put back the store that was followed; or have the follower begin anew, as a mirror does in another schema",
        }),
        1023 => Some(Meaning {
            parts: ", epoch",
            name: "no such epoch",
            when: "`export --until`: the store has no epoch of that number, or its volume isn't there",
            advice: "a lower number; put the volume back",
        }),
        1090 => Some(Meaning {
            parts: "",
            name: "memory, store",
            when: "memory was refused for the store",
            advice: "start the server again with more memory: it finds all that was answered",
        }),
        _ => None,
    }
}
