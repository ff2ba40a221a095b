// Written by `tools/faults` from `docs/use/faults.md`.

use crate::meanings::Meaning;

pub fn from_31_to_204(number: u16) -> Option<Meaning> {
    match number {
        31 => Some(Meaning {
            parts: "",
            name: "file not readable",
            when: "the file can't be opened or read to its end",
            advice: "look at the path and its rights; the line before says what the system answered",
        }),
        32 => Some(Meaning {
            parts: "",
            name: "file not writable",
            when: "the file can't be made or written; what stands in it then isn't known",
            advice: "look at the path, its rights and the space that is left",
        }),
        33 => Some(Meaning {
            parts: "",
            name: "port not free",
            when: "the port of 127.0.0.1 is taken or not allowed, or the socket's file can't be made, as where another file is; of `stop` and `status`, no server answers on it",
            advice: "take another port or path, or end the program that has it; for `stop` and `status`, look what the server got by `--control` or `--control-socket`",
        }),
        101 => Some(Meaning {
            parts: "",
            name: "no node",
            when: "the list of parents is empty",
            advice: "give at least the root: `{\"parents\":[0],\"records\":[[0,0,0,0,0,0,0,0]]}`",
        }),
        102 => Some(Meaning {
            parts: "",
            name: "too many nodes",
            when: "there are more nodes than 4,096, or than `--nodes` says, or would be after a growth",
            advice: "let it have more by `--nodes`, up to 65535; or split the tree",
        }),
        103 => Some(Meaning {
            parts: "",
            name: "root's parent",
            when: "the parent of node 0 isn't 0",
            advice: "begin the parents with 0",
        }),
        104 => Some(Meaning {
            parts: ", node",
            name: "parent not lower",
            when: "the parent of this node, or of this new one of a growth, is no node of a lower number",
            advice: "number the nodes so that each comes after its parent",
        }),
        105 => Some(Meaning {
            parts: "",
            name: "records and nodes",
            when: "there are more or fewer records than nodes",
            advice: "give each node one record of eight integers, or each one of four",
        }),
        106 => Some(Meaning {
            parts: "",
            name: "not a tree",
            when: "the text isn't `{\"parents\":[..],\"records\":[..]}`, or its records aren't all of eight integers or all of four",
            advice: "compare it with the form in `formats.md`",
        }),
        190 => Some(Meaning {
            parts: "",
            name: "memory, tree",
            when: "memory was refused for a tree",
            advice: "try again with more memory",
        }),
        201 => Some(Meaning {
            parts: "",
            name: "not a container",
            when: "the bytes begin neither with `TLP1` nor with `TLP2`",
            advice: "make the container by `treedb asm`",
        }),
        202 => Some(Meaning {
            parts: "",
            name: "length",
            when: "there are fewer than 8 bytes, or not 8 for the header and 8 for each instruction",
            advice: "make the container anew",
        }),
        203 => Some(Meaning {
            parts: ", position",
            name: "unknown opcode",
            when: "no instruction of the container's version has this opcode",
            advice: "opcodes are 1 to 20, and 21 in version 2",
        }),
        204 => Some(Meaning {
            parts: ", position",
            name: "bad operand",
            when: "an operand is out of its range, such as a field above 3 in version 1, or one that isn't used isn't 0",
            advice: "see the table of containers in `formats.md`",
        }),
        _ => None,
    }
}

pub fn from_205_to_275(number: u16) -> Option<Meaning> {
    match number {
        205 => Some(Meaning {
            parts: "",
            name: "count",
            when: "there aren't 1 to 1,024 instructions",
            advice: "split the procedure",
        }),
        206 => Some(Meaning {
            parts: "",
            name: "arity",
            when: "the arity is above 8, or the byte after it isn't 0",
            advice: "a call takes at most 8 arguments",
        }),
        207 => Some(Meaning {
            parts: "",
            name: "not version 1",
            when: "the container that is to be migrated is of version 2",
            advice: "use it as it is",
        }),
        251 => Some(Meaning {
            parts: ", line",
            name: "unreadable line",
            when: "the line is no label, no instruction of the text's version and no comment, or stands at the wrong place",
            advice: "the first line is `arity N`, or `version 2` and then that; see `instructions.md`",
        }),
        252 => Some(Meaning {
            parts: ", line",
            name: "no such label",
            when: "no line defines the label that this line uses",
            advice: "write the label on a line of its own, with `:` behind it",
        }),
        253 => Some(Meaning {
            parts: ", line",
            name: "label twice",
            when: "an earlier line defines the same label",
            advice: "give one of them another name",
        }),
        254 => Some(Meaning {
            parts: "",
            name: "text too long",
            when: "there are more than 1,024 instructions",
            advice: "split the procedure",
        }),
        255 => Some(Meaning {
            parts: "",
            name: "not UTF-8",
            when: "the text that is to be assembled or compiled isn't UTF-8",
            advice: "save the text as UTF-8",
        }),
        270 => Some(Meaning {
            parts: ", line, column",
            name: "unknown character",
            when: "the character begins no word, number or sign",
            advice: "look at the character; texts and their signs are ASCII, outside of comments",
        }),
        271 => Some(Meaning {
            parts: ", line, column",
            name: "bad number",
            when: "the number has a leading zero or a letter, or is too large; or a constant is, or a number on the way to it, or one there is divided by 0; or the code of a failure has more than 32 bits",
            advice: "numbers are decimal, from -9223372036854775808 to 9223372036854775807",
        }),
        272 => Some(Meaning {
            parts: ", line, column",
            name: "long name",
            when: "the name has more than 32 characters",
            advice: "take a shorter name",
        }),
        273 => Some(Meaning {
            parts: ", line, column",
            name: "misplaced",
            when: "the word, number or sign can't stand here, as a `return` in a part; a side of `%`, or the code of a failure, is computed; a part is named `while` or `found`",
            advice: "look at what stands before it; `language.md` has the grammar",
        }),
        274 => Some(Meaning {
            parts: ", line, column",
            name: "too deep",
            when: "this would open a 65th level of blocks, parentheses and operators, a fifth part in one another, or with the blocks of parts an 81st block",
            advice: "give a part of the expression a name by `let`, or take blocks apart",
        }),
        275 => Some(Meaning {
            parts: ", line, column",
            name: "unknown name",
            when: "no such name, field or part is known here",
            advice: "declare it before it is used; a name is known up to the end of its block",
        }),
        _ => None,
    }
}

pub fn from_276_to_289(number: u16) -> Option<Meaning> {
    match number {
        276 => Some(Meaning {
            parts: ", line, column",
            name: "name twice",
            when: "the name is declared already",
            advice: "take another name: nothing is shadowed",
        }),
        277 => Some(Meaning {
            parts: ", line, column",
            name: "wrong kind",
            when: "a number, a condition, a value or a node stands where something else is wanted",
            advice: "see the rules in `language.md`",
        }),
        278 => Some(Meaning {
            parts: ", line, column",
            name: "field above 7",
            when: "a field's number isn't from 0 to 7",
            advice: "a record has the fields 0 to 7",
        }),
        279 => Some(Meaning {
            parts: ", line, column",
            name: "wrong number of arguments",
            when: "the procedure has more than 8 arguments, a part is given more or less than it has names for, or a loop is left with more or fewer numbers than its `found` has names",
            advice: "a call takes at most 8 arguments, a part what stands in its parentheses, and `break with` a number for each name",
        }),
        280 => Some(Meaning {
            parts: ", line, column",
            name: "turns not constant",
            when: "how often the loop turns is no constant from 1 to 65,535",
            advice: "write a number or a constant, or `repeat e at most w`",
        }),
        281 => Some(Meaning {
            parts: ", line, column",
            name: "not held",
            when: "the node isn't held on every path to here, or to where it is given to a part",
            advice: "lock it on every path, or use it before it is freed",
        }),
        282 => Some(Meaning {
            parts: ", line, column",
            name: "entered again",
            when: "`node(..)` may have locked a node before",
            advice: "enter the tree once, by `node(..)`, and go on by `child(..)`",
        }),
        283 => Some(Meaning {
            parts: ", line, column",
            name: "turn changes held",
            when: "a turn of the loop ends with other nodes held than it began with, or enters the tree",
            advice: "lock and free the same nodes in each turn",
        }),
        284 => Some(Meaning {
            parts: ", line, column",
            name: "loop without turns",
            when: "the node's children were locked or gone through before, so the loop would fail",
            advice: "go through the children once",
        }),
        285 => Some(Meaning {
            parts: ", line, column",
            name: "other parent",
            when: "the second of two children that are locked at once is a child of another node",
            advice: "lock them one after the other",
        }),
        286 => Some(Meaning {
            parts: ", line, column",
            name: "else goes on",
            when: "the `else` of a `let` or a `lock` comes to its end, where the name would stand for nothing",
            advice: "end it with `return`, `fail` or `break`, or use `if lock`",
        }),
        287 => Some(Meaning {
            parts: ", line, column",
            name: "unreachable",
            when: "no path leads to the statement",
            advice: "remove it, or what leaves before it",
        }),
        288 => Some(Meaning {
            parts: ", line, column",
            name: "no loop",
            when: "`break` stands outside a loop, or outside those of its part, or `break with` in a loop without `found`",
            advice: "use `return` or `fail`, or write `found` behind the loop",
        }),
        289 => Some(Meaning {
            parts: "",
            name: "not one procedure",
            when: "the text has no procedure of that name, or without a name not exactly one",
            advice: "name one of its procedures by `--proc`",
        }),
        _ => None,
    }
}

pub fn from_290_to_299(number: u16) -> Option<Meaning> {
    match number {
        290 => Some(Meaning {
            parts: "",
            name: "memory, text",
            when: "memory was refused for a container or a text",
            advice: "try again with more memory",
        }),
        291 => Some(Meaning {
            parts: ", line, column",
            name: "too many values",
            when: "more than 16 value registers are needed",
            advice: "end blocks earlier, or use fewer names and shorter expressions",
        }),
        292 => Some(Meaning {
            parts: ", line, column",
            name: "too many nodes",
            when: "more than 8 node registers are needed",
            advice: "end blocks earlier, or go down by `descend`",
        }),
        293 => Some(Meaning {
            parts: ", line, column",
            name: "too many loops",
            when: "a loop stands in four others, or a part has more loops in one another than there is room for where it is used",
            advice: "take the procedure apart",
        }),
        294 => Some(Meaning {
            parts: ", line, column",
            name: "text too long",
            when: "the procedure has more than 1,024 instructions, and the place is where most of them come from; or the parts of the text have more than 262,144 words and signs, counted at each use, where 16 names of the text count as one more; or there are more than 262,144 statements, each counted once for each block around it, and those of a part at each use",
            advice: "split the procedure, or the text",
        }),
        295 => Some(Meaning {
            parts: ", line, column",
            name: "too many steps",
            when: "the procedure may do more than 1,000,000 instructions: what stands in loops counts as often as they may turn, all bounds multiplied; the place is where most of them come from",
            advice: "let the loops around it turn less often, or do it behind them",
        }),
        296 => Some(Meaning {
            parts: ", line, column",
            name: "too many locks",
            when: "the procedure may lock more than 4,096 nodes: a lock in loops counts as often as they may turn, all bounds multiplied; the place is where most of them come from",
            advice: "let the loops around it turn less often",
        }),
        297 => Some(Meaning {
            parts: ", line, column",
            name: "too many emits",
            when: "the procedure may emit more than 32 values: an `emit` in loops counts as often as they may turn, all bounds multiplied; the place is where most of them come from",
            advice: "remember what was found, `break`, and emit it behind the loop; or let the loops turn less often",
        }),
        298 => Some(Meaning {
            parts: ", line, column",
            name: "field twice",
            when: "the statement writes this field of the node already",
            advice: "write the sum of both, or take two statements",
        }),
        299 => Some(Meaning {
            parts: ", line, column",
            name: "written before",
            when: "a field may have been written before the statement fails, in an atomic procedure",
            advice: "compute first, and write in one statement; or give the statement an `else` of its own",
        }),
        _ => None,
    }
}
