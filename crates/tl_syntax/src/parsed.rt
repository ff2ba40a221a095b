// The content of a text as it is written: names are not looked up yet.

use crate::operator::Operator;
use crate::token::Symbol;

/// A name, at the place where it is used or declared.
#[derive(Clone, Copy)]
pub struct Name {
    pub symbol: Symbol,
    pub offset: usize,
}

/// How two numbers are compared.
#[derive(Clone, Copy, PartialEq, Eq)]
pub enum Comparison {
    Less,
    LessOrEqual,
    Greater,
    GreaterOrEqual,
    Equal,
    NotEqual,
}

/// An expression, and the offset of its first token.
#[cycle(expression)]
#[derive(Drop)]
pub struct Expression {
    pub offset: usize,
    pub form: Form,
}

/// The form of an expression.
#[cycle(expression)]
#[derive(Drop)]
pub enum Form {
    Number(i64),
    Named(Name),
    Field { node: Name, field: Name },
    Children(Name),
    Negated(Box<Expression>),
    Calculated(Operator, Box<Expression>, Box<Expression>),
    Compared(Comparison, Box<Expression>, Box<Expression>),
    Not(Box<Expression>),
    And(Box<Expression>, Box<Expression>),
    Or(Box<Expression>, Box<Expression>),
}

/// A child to be locked.
#[derive(Drop)]
pub struct Child {
    pub name: Name,
    pub parent: Name,
    pub number: Expression,
}

/// What is to be locked.
#[derive(Drop)]
pub enum Place {
    /// The node with a number; the word `node` stands at the offset.
    Node {
        name: Name,
        offset: usize,
        number: Expression,
    },
    Child(Child),
    Pair(Child, Child),
}

/// How a value or a field changes.
#[derive(Clone, Copy, PartialEq, Eq)]
pub enum Change {
    Set,
    Add,
    Subtract,
}

/// How control leaves a block.
#[derive(Clone, Copy, PartialEq, Eq)]
pub enum Leave {
    Break,
    Return,
    Fail,
}

/// A write of a field of a node.
#[derive(Drop)]
pub struct Write {
    pub node: Name,
    pub field: Name,
    pub change: Change,
    pub value: Expression,
}

/// A statement without blocks of its own.
#[derive(Drop)]
pub enum Action {
    Let {
        name: Name,
        value: Expression,
    },
    Assign {
        name: Name,
        change: Change,
        value: Expression,
    },
    /// A write, and those that follow it: all numbers are computed before the first field is written.
    Write(Write, Vec<Write>),
    Emit(Vec<Expression>),
    /// A condition, and the code of the failure where it doesn't hold.
    Require(Expression, Option<Expression>),
    Lock(Place),
    Descend {
        node: Name,
        number: Expression,
    },
    Take {
        node: Name,
        from: Name,
    },
    Free(Name),
    Leave(Leave),
    /// A failure with this code.
    Fail(Expression),
    /// The innermost loop is left with these numbers.
    BreakWith(Vec<Expression>),
    /// A part, and what it is given here.
    Use {
        part: Name,
        arguments: Vec<Expression>,
    },
}

/// What an `if` tests.
#[derive(Drop)]
pub enum Question {
    Condition(Expression),
    Lock(Place),
}

/// The block of an `else`; the word stands at the offset.
#[cycle(statement)]
#[derive(Drop)]
pub struct Otherwise {
    pub offset: usize,
    pub body: Vec<Statement>,
}

/// A statement, and the offset of its first word.
#[cycle(statement)]
#[derive(Drop)]
pub struct Statement {
    pub offset: usize,
    pub form: StatementForm,
}

/// The form of a statement.
#[cycle(statement)]
#[derive(Drop)]
pub enum StatementForm {
    Act(Action, Option<Otherwise>),
    /// Where the first block fails, the second one is done. The name, if there is one, has the failure's code there.
    Try(Option<Name>, Vec<Statement>, Vec<Statement>),
    If(Question, Vec<Statement>, Vec<Statement>),
    Repeat {
        turns: Expression,
        at_most: Option<Expression>,
        body: Vec<Statement>,
    },
    /// The index is the name of the child's place among all children.
    ForEach {
        child: Name,
        index: Option<Name>,
        parent: Name,
        at_most: Expression,
        body: Vec<Statement>,
    },
    /// A block of its own.
    Block(Vec<Statement>),
    /// A loop, alone in the first block. Where it is left with numbers, these have the names in the second block; otherwise the third one
    /// is done behind it.
    Search(Vec<Statement>, Vec<Name>, Vec<Statement>, Vec<Statement>),
}

/// A procedure. One that is marked by `atomic` promises that it has written nothing where it fails. In its `else` the name `why`, if it
/// is given, has the failure's code.
#[derive(Drop)]
pub struct Procedure {
    pub is_atomic: bool,
    pub name: Name,
    pub arguments: Vec<Name>,
    pub body: Vec<Statement>,
    pub why: Option<Name>,
    pub otherwise: Vec<Statement>,
}

/// What a part is given where it is used: a node, a value that it may change, or a number.
#[derive(Clone, Copy)]
pub enum Parameter {
    Node(Name),
    Variable(Name),
    Value(Name),
}

/// A block that is read where it is used, in the names that it is given there. Its size is the number of its tokens.
#[derive(Drop)]
pub struct Part {
    pub name: Name,
    pub parameters: Vec<Parameter>,
    pub body: Vec<Statement>,
    pub size: usize,
}

/// A declaration at the top level of a text.
#[derive(Drop)]
pub enum Declaration {
    Field { name: Name, number: Expression },
    Constant { name: Name, value: Expression },
    Procedure(Procedure),
    Part(Part),
}
