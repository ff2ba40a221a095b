// Loops over the children of a node whose turns leave their place and their node alone: once the first turn has locked a child, each
// turn finds the next one.

ghost use Rattle.std.specs.Prelude.{◌≡◌, ℤ};
ghost use Rattle.tl_lowering.specs.Walks.{locks_elsewhere as locks_elsewhere_lem, leaves_alone as leaves_alone_lem, is_value as is_value_lem, is_constant as is_constant_lem, is_next as is_next_lem, is_step as is_step_lem, is_fail as is_fail_lem, is_child as is_child_lem, locks_next as locks_next_lem, is_turn as is_turn_lem, goes_through as goes_through_lem, is_walk as is_walk_lem};

use crate::program::{Expression, Place, Statement};
use tl_instr::{NodeRegister, ValueRegister};
use tl_syntax::Operator;

// Whether the lock puts nothing into the node's register, and locks none of its children.
fn locks_elsewhere(place: &Place, node: NodeRegister) -> bool
    ensures { result ≡ locks_elsewhere_lem place.now node }
{
    match place {
        Place::Node(first, _) => *first != node,
        Place::Child(first, parent, _) => *first != node && *parent != node,
        Place::Pair {
            first,
            second,
            parent,
            ..
        } => *first != node && *second != node && *parent != node,
    }
}

// Whether the statement doesn't change the value or the register of the node, and locks none of the node's children.
fn leaves_alone(statement: &Statement, value: ValueRegister, node: NodeRegister) -> bool
    ensures { result ≡ leaves_alone_lem statement.now value node }
{
    match statement {
        Statement::Skip
        | Statement::Write(_, _, _)
        | Statement::Emit(_)
        | Statement::Free(_)
        | Statement::Break
        | Statement::Return
        | Statement::Fail => true,
        Statement::Assign(register, _) => *register != value,
        Statement::Descend(register, _) | Statement::Take(register, _) => *register != node,
        Statement::Sequence(first, second)
        | Statement::If(_, first, second)
        | Statement::Try(first, second) => {
            leaves_alone(first, value, node) && leaves_alone(second, value, node)
        }
        Statement::Let(register, _, body) => *register != value && leaves_alone(body, value, node),
        Statement::LetElse(register, _, body, otherwise) => {
            *register != value
                && leaves_alone(body, value, node)
                && leaves_alone(otherwise, value, node)
        }
        Statement::Lock(place, body, otherwise) => {
            locks_elsewhere(place, node)
                && leaves_alone(body, value, node)
                && leaves_alone(otherwise, value, node)
        }
        Statement::Repeat(_, body) | Statement::RepeatUpTo(_, _, body) | Statement::At(_, body) =>
            leaves_alone(body, value, node),
    }
}

fn is_value(expression: &Expression, value: ValueRegister) -> bool
    ensures { result ≡ is_value_lem expression.now value }
{
    match expression {
        Expression::Value(register) => *register == value,
        _ => false,
    }
}

fn is_constant(expression: &Expression, number: i32) -> bool
    ensures { result ≡ is_constant_lem expression.now number }
{
    match expression {
        Expression::Constant(other) => *other == number,
        _ => false,
    }
}

// Whether it is one more than the value.
fn is_next(expression: &Expression, value: ValueRegister) -> bool
    ensures { result ≡ is_next_lem expression.now value }
{
    match expression {
        Expression::Calculated(Operator::Add, left, right) => {
            is_value(left, value) && is_constant(right, 1)
        }
        _ => false,
    }
}

// Whether it increases the value by 1.
fn is_step(statement: &Statement, value: ValueRegister) -> bool
    ensures { result ≡ is_step_lem statement.now value }
{
    match statement {
        Statement::Assign(register, number) => is_next(number, value) && *register == value,
        _ => false,
    }
}

fn is_fail(statement: &Statement) -> bool
    ensures { result ≡ is_fail_lem statement.now }
{
    matches!(*statement, Statement::Fail)
}

// Whether it is the node's child with the value's number.
fn is_child(place: &Place, value: ValueRegister, node: NodeRegister) -> bool
    ensures { result ≡ is_child_lem place.now value node }
{
    match place {
        Place::Child(_, parent, number) => *parent == node && is_value(number, value),
        _ => false,
    }
}

// Whether it locks that child, and its body leaves the value and the node alone.
fn locks_next(statement: &Statement, value: ValueRegister, node: NodeRegister) -> bool
    ensures { result ≡ locks_next_lem statement.now value node }
{
    match statement {
        Statement::Lock(place, body, otherwise) => {
            is_child(place, value, node) && leaves_alone(body, value, node) && is_fail(otherwise)
        }
        _ => false,
    }
}

fn is_turn(statement: &Statement, value: ValueRegister, node: NodeRegister) -> bool
    ensures { result ≡ is_turn_lem statement.now value node }
{
    match statement {
        Statement::Sequence(first, second) => {
            locks_next(second, value, node) && is_step(first, value)
        }
        _ => false,
    }
}

// Whether the turns go through the children that are counted.
fn goes_through(count: &Expression, turn: &Statement, value: ValueRegister) -> bool
    ensures { result ≡ goes_through_lem count.now turn.now value }
{
    match count {
        Expression::Children(node) => is_turn(turn, value, *node),
        _ => false,
    }
}

/// Whether the statement, where the value has that number, goes through the children of a node as a `for each` does, and its turns
/// leave the value and the node alone.
pub fn is_walk(value: ValueRegister, number: &Expression, statement: &Statement) -> bool
    ensures { result ≡ is_walk_lem value number.now statement.now }
{
    match statement {
        Statement::RepeatUpTo(count, turns, turn) => {
            // It is read for its range, in which the place never overflows.
            let _turns = *turns;
            is_constant(number, -1) && goes_through(count, turn, value)
        }
        _ => false,
    }
}
