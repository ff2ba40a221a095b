// The core forms: the meaning of a text, with registers in place of names.

use tl_instr::{Field, NodeRegister, ValueRegister};
use tl_syntax::Operator;

/// A number. It fails if the result of an operation doesn't fit 64 bits, or if an operation divides by 0.
#[derive(Drop)]
pub enum Expression {
    Constant(i32),
    Value(ValueRegister),
    Field(NodeRegister, Field),
    Children(NodeRegister),
    Calculated(Operator, Box<Expression>, Box<Expression>),
}

/// A condition: true or false. It fails if a number in it fails.
#[derive(Drop)]
pub enum Condition {
    Less(Expression, Expression),
    Greater(Expression, Expression),
    Equal(Expression, Expression),
    Not(Box<Condition>),
    And(Box<Condition>, Box<Condition>),
}

/// What is locked, and the registers in which it is then held.
#[derive(Drop)]
pub enum Place {
    /// The node with that number.
    Node(NodeRegister, Expression),
    /// The child with that number, of the second register's node.
    Child(NodeRegister, NodeRegister, Expression),
    /// Two children of one node at once.
    Pair {
        first: NodeRegister,
        second: NodeRegister,
        parent: NodeRegister,
        first_number: Expression,
        second_number: Expression,
    },
}

/// A statement.
#[derive(Drop)]
pub enum Statement {
    Skip,
    /// One after the other.
    Sequence(Box<Statement>, Box<Statement>),
    Assign(ValueRegister, Expression),
    Write(NodeRegister, Field, Expression),
    Emit(Expression),
    Free(NodeRegister),
    /// The register descends to the child with that number: the child is locked, and then the node is freed.
    Descend(NodeRegister, Expression),
    /// The first register's node is freed, and the first register takes over the second one's node.
    Take(NodeRegister, NodeRegister),
    Break,
    Return,
    Fail,
    If(Condition, Box<Statement>, Box<Statement>),
    /// A value, and the statement in which it has its register.
    Let(ValueRegister, Expression, Box<Statement>),
    /// The same, and what is done if the number can't be computed.
    LetElse(ValueRegister, Expression, Box<Statement>, Box<Statement>),
    /// The statement in which the place is held, and what is done if it can't be locked.
    Lock(Place, Box<Statement>, Box<Statement>),
    /// The second statement is done if the first one fails.
    Try(Box<Statement>, Box<Statement>),
    /// That many turns.
    Repeat(u16, Box<Statement>),
    /// As many turns as the number says. It fails if the number is greater than the `u16`.
    RepeatUpTo(Expression, u16, Box<Statement>),
    /// The statement itself, which stands in the text at that offset.
    At(usize, Box<Statement>),
}

/// A procedure: its name, the offset of the name in the text, the number of its arguments, and its body.
#[derive(Drop)]
pub struct Procedure {
    pub name: Vec<u8>,
    pub offset: usize,
    pub arity: u8,
    pub body: Statement,
}

/// The procedures of a text, in order.
#[derive(Drop)]
pub struct Program {
    pub procedures: Vec<Procedure>,
}
