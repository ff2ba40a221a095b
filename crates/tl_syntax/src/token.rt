// The tokens of a text.

/// A name, by its number among the names of a text. Equal names have the same number.
#[derive(Clone, Copy, Debug, PartialEq, Eq)]
pub struct Symbol(pub usize);

/// The words of the grammar that may also be names.
impl Symbol {
    pub const AT: Symbol = Symbol(0);

    pub const EACH: Symbol = Symbol(1);

    pub const MOST: Symbol = Symbol(2);

    pub const OF: Symbol = Symbol(3);

    pub const TO: Symbol = Symbol(4);

    pub const ATOMIC: Symbol = Symbol(5);

    pub const WHILE: Symbol = Symbol(6);

    pub const PART: Symbol = Symbol(7);

    pub const VAR: Symbol = Symbol(8);

    pub const WITH: Symbol = Symbol(9);

    pub const FOUND: Symbol = Symbol(10);
}

/// The kind of a token. The reserved words come first.
#[derive(Clone, Copy, Debug, PartialEq, Eq)]
pub enum TokenKind {
    And,
    Break,
    Child,
    Const,
    Descend,
    Else,
    Emit,
    Fail,
    Field,
    For,
    Free,
    If,
    Kids,
    Let,
    Lock,
    Node,
    Not,
    Or,
    Proc,
    Repeat,
    Require,
    Return,
    Try,
    Name(Symbol),
    Number(u64),
    LeftParenthesis,
    RightParenthesis,
    LeftBrace,
    RightBrace,
    Comma,
    Semicolon,
    Colon,
    Dot,
    Assign,
    AddAssign,
    SubtractAssign,
    Plus,
    Minus,
    Times,
    Divide,
    Remainder,
    Less,
    LessOrEqual,
    Greater,
    GreaterOrEqual,
    Equal,
    NotEqual,
    End,
}

/// A token, and the offset of its first byte.
#[derive(Clone, Copy, Debug, PartialEq, Eq)]
pub struct Token {
    pub kind: TokenKind,
    pub offset: usize,
}
