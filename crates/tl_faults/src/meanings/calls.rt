// Written by `tools/faults` from `docs/use/faults.md`.

use crate::meanings::Meaning;

pub fn from_301_to_406(number: u16) -> Option<Meaning> {
    match number {
        301 => Some(Meaning {
            parts: ", position",
            name: "loop without end",
            when: "the `rep` or `repv` has no `end`",
            advice: "add the `end`",
        }),
        302 => Some(Meaning {
            parts: ", position",
            name: "end without loop",
            when: "no loop is open at the `end`",
            advice: "remove it, or add the `rep` or `repv`",
        }),
        303 => Some(Meaning {
            parts: ", position",
            name: "loops too deep",
            when: "a `rep` or `repv` stands in four loops",
            advice: "take one loop apart",
        }),
        304 => Some(Meaning {
            parts: ", position",
            name: "loop of no turns",
            when: "the count of the `rep` or `repv` is 0",
            advice: "remove the loop, or give a count of 1 to 65,535",
        }),
        305 => Some(Meaning {
            parts: "",
            name: "too many steps",
            when: "the code may do more than 1,000,000 instructions",
            advice: "lower the counts of its loops",
        }),
        306 => Some(Meaning {
            parts: "",
            name: "too many locks",
            when: "the code may lock more than 4,096 nodes",
            advice: "lower the counts of the loops around `child`",
        }),
        307 => Some(Meaning {
            parts: "",
            name: "too many values",
            when: "the code may emit more than 32 values",
            advice: "emit sums, or make two procedures",
        }),
        390 => Some(Meaning {
            parts: "",
            name: "memory, loops",
            when: "memory was refused while loops were looked at by themselves; the program doesn't answer it",
            advice: "try again with more memory",
        }),
        401 => Some(Meaning {
            parts: ", position",
            name: "jump back",
            when: "the target is at or before the instruction",
            advice: "only an `end` leads back: use a loop",
        }),
        402 => Some(Meaning {
            parts: ", position",
            name: "jump into a loop",
            when: "a loop is around the target and not around the instruction",
            advice: "jump to its `rep`, or behind its `end`",
        }),
        403 => Some(Meaning {
            parts: ", position",
            name: "past the end",
            when: "control can go on past the last instruction, as it does behind the `end` of a `repv` that makes no turn",
            advice: "end each way with `ret`",
        }),
        404 => Some(Meaning {
            parts: ", position",
            name: "second `first`",
            when: "a path to this instruction has executed `first` already",
            advice: "lock further nodes by `child`; a call enters the tree once",
        }),
        405 => Some(Meaning {
            parts: ", position, register",
            name: "empty register",
            when: "the register holds no node here",
            advice: "lock a node into it on each way that leads here",
        }),
        406 => Some(Meaning {
            parts: ", position, register",
            name: "full register",
            when: "the register that is to be filled holds a node here",
            advice: "free that node by `rel`, or take another register",
        }),
        _ => None,
    }
}

pub fn from_407_to_612(number: u16) -> Option<Meaning> {
    match number {
        407 => Some(Meaning {
            parts: ", position, register",
            name: "node not freed",
            when: "the call would end while it holds a node",
            advice: "`rel` each held register before `ret`",
        }),
        408 => Some(Meaning {
            parts: ", position",
            name: "ways disagree",
            when: "two ways that meet here hold different registers",
            advice: "let each branch free the same registers before they meet",
        }),
        409 => Some(Meaning {
            parts: ", position",
            name: "loop changes registers",
            when: "a turn of the loop ends with other registers than it began with",
            advice: "free or move within the turn what it locks",
        }),
        490 => Some(Meaning {
            parts: "",
            name: "memory, verifier",
            when: "memory was refused to the verifier",
            advice: "try again with more memory",
        }),
        501 => Some(Meaning {
            parts: "",
            name: "number of arguments",
            when: "there are more or fewer arguments than the procedure takes",
            advice: "its text begins with `arity N`",
        }),
        601 => Some(Meaning {
            parts: "",
            name: "no such procedure",
            when: "no procedure has this name",
            advice: "register it first; names are compared letter by letter",
        }),
        602 => Some(Meaning {
            parts: "",
            name: "no such call",
            when: "no call of this number was admitted",
            advice: "calls are numbered from 0 as they are admitted",
        }),
        603 => Some(Meaning {
            parts: "",
            name: "too many calls",
            when: "4,096 calls of this epoch were admitted",
            advice: "seal the epoch once all its calls are done, and ask again; the server (not in session mode) does so by itself",
        }),
        604 => Some(Meaning {
            parts: "",
            name: "too many open calls",
            when: "64 calls are open",
            advice: "wait for one of them to end; a batch does so by itself",
        }),
        605 => Some(Meaning {
            parts: "",
            name: "history full",
            when: "there is no room in the epoch for all the events that the call may have",
            advice: "seal the epoch once all its calls are done, and ask again; the server (not in session mode) does so by itself",
        }),
        606 => Some(Meaning {
            parts: ", call",
            name: "not at rest",
            when: "the call isn't done, so the epoch isn't sealed; it is the least such call",
            advice: "let all calls end, and seal again",
        }),
        607 => Some(Meaning {
            parts: "",
            name: "another turn",
            when: "the segment doesn't begin at the turn that the call is at; only in the library",
            advice: "ask for the call's turn again",
        }),
        611 => Some(Meaning {
            parts: "",
            name: "name taken",
            when: "a procedure of this name was registered before",
            advice: "choose another name",
        }),
        612 => Some(Meaning {
            parts: "",
            name: "bad name",
            when: "a name isn't 1 to 32 of ASCII letters, digits and `_`",
            advice: "choose another name",
        }),
        _ => None,
    }
}

pub fn from_613_to_690(number: u16) -> Option<Meaning> {
    match number {
        613 => Some(Meaning {
            parts: "",
            name: "too many procedures",
            when: "256 procedures were registered",
            advice: "fold some into one that takes an argument more",
        }),
        651 => Some(Meaning {
            parts: ", call",
            name: "unfinished",
            when: "the call isn't done, so there is no order yet",
            advice: "let it go on to its end",
        }),
        690 => Some(Meaning {
            parts: "",
            name: "memory, calls",
            when: "memory was refused for a call, a procedure or the order",
            advice: "try again with more memory",
        }),
        _ => None,
    }
}
