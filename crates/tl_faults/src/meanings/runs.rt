// Written by `tools/faults` from `docs/use/faults.md`.

use crate::meanings::Meaning;

pub fn from_701_to_790(number: u16) -> Option<Meaning> {
    match number {
        701 => Some(Meaning {
            parts: "",
            name: "not a trail",
            when: "the text has another form, or an event is of a call or a node that isn't there",
            advice: "write trails by `--trail`",
        }),
        711 => Some(Meaning {
            parts: ", event",
            name: "rule broken",
            when: "the event breaks a rule of the tree protocol",
            advice: "no run leaves such a trail; ask who wrote it",
        }),
        712 => Some(Meaning {
            parts: ", event",
            name: "overlap",
            when: "the call locks a node that another call holds",
            advice: "no run leaves such a trail; ask who wrote it",
        }),
        713 => Some(Meaning {
            parts: ", event",
            name: "wrong record found",
            when: "the lock finds another record than was left there last",
            advice: "no run leaves such a trail; ask who wrote it",
        }),
        714 => Some(Meaning {
            parts: ", call",
            name: "not its procedure's work",
            when: "the call's locks and frees aren't those of its procedure run alone with what it found",
            advice: "no run leaves such a trail; ask who wrote it",
        }),
        715 => Some(Meaning {
            parts: ", call",
            name: "call without end",
            when: "the call has no end",
            advice: "let all calls end before the trail is audited",
        }),
        716 => Some(Meaning {
            parts: ", node",
            name: "wrong end",
            when: "the record in the end isn't the one that was left last",
            advice: "no run leaves such a trail; ask who wrote it",
        }),
        717 => Some(Meaning {
            parts: ", call",
            name: "wrong reply",
            when: "the call's reply isn't its procedure's with what it found",
            advice: "no run leaves such a trail; ask who wrote it",
        }),
        718 => Some(Meaning {
            parts: ", trail",
            name: "broken chain",
            when: "the trail, counted from 0, doesn't open with the tree that the one before it ends with, to which a server may have appended nodes of zeros between two files, or its procedures don't begin with that one's",
            advice: "keep the trails of a run together, in their order",
        }),
        719 => Some(Meaning {
            parts: ", trail, number",
            name: "fault in a trail of a chain",
            when: "something is wrong with the trail; its fault's numbers follow",
            advice: "look up the number behind the trail's",
        }),
        720 => Some(Meaning {
            parts: "",
            name: "procedure replaced",
            when: "with `--same-procedures`: a procedure has another code than under its name in the file before; or the file is a store, of which this isn't compared",
            advice: "allow it, if somebody put the procedure in the place of the other; `export` a store first",
        }),
        731 => Some(Meaning {
            parts: "",
            name: "not a script",
            when: "the text isn't the command's script",
            advice: "compare it with the form in `formats.md`",
        }),
        732 => Some(Meaning {
            parts: "",
            name: "not arguments",
            when: "the arguments aren't a JSON list of signed 64-bit integers",
            advice: "write them as `'[1,2]'`",
        }),
        790 => Some(Meaning {
            parts: "",
            name: "memory, trail",
            when: "memory was refused for a trail or its audit",
            advice: "try again with more memory",
        }),
        _ => None,
    }
}

pub fn from_801_to_990(number: u16) -> Option<Meaning> {
    match number {
        801 => Some(Meaning {
            parts: "",
            name: "stale segment",
            when: "the segment doesn't begin where its call is, or the call is done; only in the library",
            advice: "ask for the call's state again",
        }),
        803 => Some(Meaning {
            parts: "",
            name: "no such session",
            when: "no session of this number was given; only in the library",
            advice: "take a session from the table",
        }),
        808 => Some(Meaning {
            parts: "",
            name: "too many epochs",
            when: "the last of 256 epochs is the current one, so it isn't sealed",
            advice: "end the run, and start the next one on the tree that it printed; the server (not in session mode) goes on by itself",
        }),
        821 => Some(Meaning {
            parts: "",
            name: "too many sessions",
            when: "65,535 sessions were given",
            advice: "end the run, and start the next one on the tree that it printed",
        }),
        831 => Some(Meaning {
            parts: "",
            name: "not closed",
            when: "a call isn't done, the calls that were run aren't those that were asked for, or a session is missing",
            advice: "it doesn't come in a run of the program; please report it",
        }),
        890 => Some(Meaning {
            parts: "",
            name: "memory, receipts",
            when: "memory was refused for what is kept of a call",
            advice: "try again with more memory",
        }),
        901 => Some(Meaning {
            parts: "",
            name: "not a request",
            when: "the line is none of the requests; of a line that a browser sends, the connection is ended",
            advice: "compare it with the lines in `server.md`",
        }),
        902 => Some(Meaning {
            parts: "",
            name: "line too long",
            when: "the line has more than 65,536 bytes; it is passed over",
            advice: "leave out comments and indentation of a text, or send a batch of fewer calls",
        }),
        903 => Some(Meaning {
            parts: "",
            name: "line not UTF-8",
            when: "the line isn't UTF-8",
            advice: "send UTF-8",
        }),
        911 => Some(Meaning {
            parts: "",
            name: "reading failed",
            when: "a connection failed while it was read; nobody is told",
            advice: "connect again",
        }),
        912 => Some(Meaning {
            parts: "",
            name: "writing failed",
            when: "a connection failed while an answer was written; nobody is told",
            advice: "connect again; ask what your calls did by the trail",
        }),
        990 => Some(Meaning {
            parts: "",
            name: "memory, program",
            when: "memory was refused for a line, a batch or the program itself; nothing was done",
            advice: "try again with more memory",
        }),
        _ => None,
    }
}
