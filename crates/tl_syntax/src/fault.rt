// The faults of a text.

ghost use Rattle.std.specs.Prelude.{◌≡◌};
ghost use Rattle.tl_syntax.specs.declared.fault.SyntaxFault.TheVariants.{Memory};

use std::alloc::{AllocError, AllocFailed};
use thiserror::Error;

/// What is wrong at a place of a text.
#[derive(Clone, Copy, Debug, PartialEq, Eq, Error)]
pub enum Wrong {
    /// 270: a character that begins no token.
    #[error("this character begins no word, number or sign")]
    Character,
    /// 271: a number that is malformed or too large.
    #[error("this number is malformed or too large")]
    Number,
    /// 271: a code of more than 32 bits.
    #[error("the code of a failure has at most 32 bits")]
    LongCode,
    /// 272: a name of more than 32 characters.
    #[error("this name has more than 32 characters")]
    LongName,
    /// 273: a token that can't stand here.
    #[error("this can't stand here")]
    Misplaced,
    /// 273: a statement that doesn't end.
    #[error("`;` is wanted here")]
    NoSemicolon,
    /// 273: no block where one is needed.
    #[error("a block is wanted here, in braces")]
    NoBlock,
    /// 273: a parenthesis that isn't closed.
    #[error("`)` is wanted here")]
    Unclosed,
    /// 273: a `try` without an `else`.
    #[error("`else` is wanted here: what is done where the block before it fails")]
    NoElse,
    /// 273: a loop without a bound.
    #[error("`at most` is wanted here, with the most turns of the loop")]
    NoBound,
    /// 273: a `return` in a part.
    #[error("a part has no `return`: behind it goes on what used it")]
    PartReturns,
    /// 273: a part named `while` or `found`.
    #[error("no part is named `while` or `found`: before a parenthesis these words belong to a loop")]
    PartName,
    /// 273: a side of `%` that is computed.
    #[error("each side of `%` is a number, a name, a field or `kids` of a node: give this one a name before, by `let`")]
    RestOperand,
    /// 273: a code that is computed.
    #[error("the code of a failure is a number, or the name of a constant or a value")]
    CodeForm,
    /// 274: more than 64 nested levels.
    #[error("more than 64 levels in one another")]
    TooDeep,
    /// 274: more than 80 blocks in one another, those of parts where they are used.
    #[error("more than 80 blocks in one another, with those of the parts that are used here")]
    Blocks,
    /// 274: a part in four others.
    #[error("more than four parts in one another")]
    PartDepth,
    /// 275: an unknown name or field.
    #[error("no such name is known here")]
    Unknown,
    /// 276: a name that is declared already.
    #[error("this name is declared already")]
    Twice,
    /// 277: a node or a condition where a number is needed.
    #[error("a number is wanted here")]
    NoNumber,
    /// 277: a number or a node where a condition is needed.
    #[error("a condition is wanted here: compare it with something")]
    NoCondition,
    /// 277: what can't be assigned.
    #[error("a value that can be assigned is wanted here: an argument, or one that `let` declares")]
    NoValue,
    /// 277: what is no node where one is needed.
    #[error("a node is wanted here")]
    NoNode,
    /// 277: a node that descends to itself.
    #[error("another node is wanted here")]
    SameNode,
    /// 277: the name of a procedure where a part is needed.
    #[error("a part is wanted here: no procedure uses another")]
    NoPart,
    /// 278: a field's number above 7.
    #[error("a field's number is above 7")]
    FieldNumber,
    /// 279: the ninth argument of a procedure.
    #[error("a ninth argument")]
    Argument,
    /// 279: more arguments or fewer than the part has names for.
    #[error("the part has more names for what it is given, or fewer")]
    Arguments,
    /// 280: a number of turns that isn't a constant from 1 to 65,535.
    #[error("how often a loop turns is a constant from 1 to 65,535 here: of any other number say the most, as in `repeat n at most 50`")]
    Turns,
    /// 281: a node that isn't held.
    #[error("the node is not held on every path to here")]
    NotHeld,
    /// 282: the tree may have been entered before.
    #[error("the tree may have been entered before")]
    EnteredAgain,
    /// 283: a turn of the loop changes what is held, or enters the tree.
    #[error("a turn of the loop changes which nodes are held, or enters the tree")]
    LoopChanges,
    /// 284: a loop over the children of a node, if the loop can have no turn.
    #[error("the children of this node were passed before: the loop would have no turn")]
    NoTurn,
    /// 285: two children of different nodes.
    #[error("the second child is one of another node")]
    OtherParent,
    /// 286: control reaches the end of the `else` of a `let` or a `lock`.
    #[error("this else comes to its end, where the name would stand for nothing")]
    ElseEnds,
    /// 287: no path leads to the statement.
    #[error("no path leads to this statement")]
    Unreached,
    /// 288: `break` outside a loop.
    #[error("break outside a loop")]
    NoLoop,
    /// 288: `break with` in a loop without `found`.
    #[error("`break with` in a loop behind which no `found` stands")]
    NoSearch,
    /// 279: another number of numbers than `found` has names.
    #[error("the loop's `found` has more names for these numbers, or fewer")]
    FoundNames,
    /// 298: a field of a node that the same statement writes already.
    #[error("this statement writes the field already: the first number would be lost")]
    WrittenTwice,
    /// 299: a failure that may follow a write, in a procedure that is marked by `atomic`.
    #[error("a field may have been written before this fails: an atomic procedure computes first, and then writes")]
    WrittenBefore,
    /// 291: more than 16 values at once.
    #[error("more than 16 value registers are needed")]
    Values,
    /// 292: more than 8 nodes at once.
    #[error("more than 8 node registers are needed")]
    Nodes,
    /// 293: a fifth loop, nested in four others.
    #[error("more than four loops in one another")]
    LoopDepth,
    /// 294: parts that are too long where they are used.
    #[error("with this part, the parts of the text have more than 262144 words and signs where they are used")]
    PartSize,
    /// 294: more statements than a text may have.
    #[error("with these, the text has more than 262144 statements, each counted once for each block around it, and those of a part at each use")]
    Statements,
}

impl Wrong {
    ghost use Rattle.tl_syntax.specs.Faults.{number_of};

    /// The fault's number.
    pub fn number(&self) -> u64
        ensures { result ≡ number_of self.now }
    {
        match *self {
            Wrong::Character => 270,
            Wrong::Number | Wrong::LongCode => 271,
            Wrong::LongName => 272,
            Wrong::TooDeep | Wrong::Blocks | Wrong::PartDepth => 274,
            Wrong::Unknown => 275,
            Wrong::Twice => 276,
            Wrong::NoNumber
            | Wrong::NoCondition
            | Wrong::NoValue
            | Wrong::NoNode
            | Wrong::SameNode
            | Wrong::NoPart => 277,
            Wrong::FieldNumber => 278,
            Wrong::Argument | Wrong::Arguments | Wrong::FoundNames => 279,
            Wrong::Turns => 280,
            Wrong::NotHeld => 281,
            Wrong::EnteredAgain => 282,
            Wrong::LoopChanges => 283,
            Wrong::NoTurn => 284,
            Wrong::OtherParent => 285,
            Wrong::ElseEnds => 286,
            Wrong::Unreached => 287,
            Wrong::NoLoop | Wrong::NoSearch => 288,
            Wrong::WrittenTwice => 298,
            Wrong::WrittenBefore => 299,
            Wrong::Values => 291,
            Wrong::Nodes => 292,
            Wrong::LoopDepth => 293,
            Wrong::PartSize | Wrong::Statements => 294,
            // All that stands where something else has to stand.
            _ => 273,
        }
    }
}

/// The first fault of a text.
#[derive(Clone, Copy, Debug, PartialEq, Eq)]
pub enum SyntaxFault {
    /// What is wrong, and the offset of the byte at which it is.
    At { wrong: Wrong, offset: usize },
    /// Memory was refused.
    Memory,
}

impl SyntaxFault {
    pub fn at(wrong: Wrong, offset: usize) -> SyntaxFault {
        SyntaxFault::At { wrong, offset }
    }
}

impl From<AllocError> for SyntaxFault {
    ghost from_gives = { λ _ e. e ≡ Memory };

    fn from(_error: AllocError) -> SyntaxFault {
        SyntaxFault::Memory
    }
}

impl<T: Drop> From<AllocFailed<T>> for SyntaxFault {
    ghost from_gives = { λ _ e. e ≡ Memory };

    fn from(_error: AllocFailed<T>) -> SyntaxFault {
        SyntaxFault::Memory
    }
}
