// What may lock a child of a node, by the node's name.

ghost use Rattle.std.specs.Prelude.{◌≡◌};
ghost use Rattle.tl_warnings.specs.Locking.{place_locks as place_locks_lem, ActionLocks, question_locks as question_locks_lem, BlockLocks, StatementLocks, ElseLocks};

use crate::reading::any_reads;
use tl_syntax::Symbol;
use tl_syntax::parsed::{Action, Otherwise, Place, Question, Statement, StatementForm};

pub fn place_locks(node: Symbol, place: &Place) -> bool
    ensures { result ≡ place_locks_lem node.0 place.now }
{
    match place {
        Place::Node { .. } => false,
        Place::Child(child) => child.parent.symbol.0 == node.0,
        Place::Pair(first, second) => {
            (first.parent.symbol.0 == node.0) | (second.parent.symbol.0 == node.0)
        }
    }
}

/// Whether the action may lock a child of the node. A part that is given the node may.
pub fn action_locks(node: Symbol, action: &Action) -> bool
    ensures { ActionLocks node.0 action.now result }
{
    match action {
        Action::Let { .. } => false,
        Action::Assign { .. } => false,
        Action::Write(_, _) => false,
        Action::Emit(_) => false,
        Action::Require(_, _) => false,
        Action::Lock(place) => place_locks(node, place),
        Action::Descend { .. } => false,
        Action::Take { .. } => false,
        Action::Free(_) => false,
        Action::Leave(_) => false,
        Action::Fail(_) => false,
        Action::BreakWith(_) => false,
        Action::Use { arguments, .. } => any_reads(node, arguments),
    }
}

pub fn question_locks(node: Symbol, question: &Question) -> bool
    ensures { result ≡ question_locks_lem node.0 question.now }
{
    match question {
        Question::Condition(_) => false,
        Question::Lock(place) => place_locks(node, place),
    }
}

/// Whether one of the statements may lock a child of the node.
#[cycle(locking)]
pub fn block_locks(node: Symbol, statements: &[Statement]) -> bool
    ensures { BlockLocks node.0 statements.now result }
{
    let mut found = false;
    for statement in statements {
        found |= statement_locks(node, statement);
    }
    found
}

#[cycle(locking)]
fn statement_locks(node: Symbol, statement: &Statement) -> bool
    ensures { StatementLocks node.0 statement.now.form result }
{
    match &statement.form {
        StatementForm::Act(action, otherwise) => {
            action_locks(node, action) | else_locks(node, otherwise)
        }
        StatementForm::Try(_, body, handler) => block_locks(node, body)
            | block_locks(node, handler),
        StatementForm::If(question, body, otherwise) => {
            let asked = question_locks(node, question);
            asked | (block_locks(node, body) | block_locks(node, otherwise))
        }
        StatementForm::Repeat { body, .. } => block_locks(node, body),
        StatementForm::ForEach { parent, body, .. } => {
            (parent.symbol.0 == node.0) | block_locks(node, body)
        }
        StatementForm::Block(body) => block_locks(node, body),
        StatementForm::Search(turns, _, found, otherwise) => {
            let searched = block_locks(node, turns);
            searched | (block_locks(node, found) | block_locks(node, otherwise))
        }
    }
}

#[cycle(locking)]
fn else_locks(node: Symbol, otherwise: &Option<Otherwise>) -> bool
    ensures { ElseLocks node.0 otherwise.now result }
{
    match otherwise {
        Some(otherwise) => block_locks(node, &otherwise.body),
        None => false,
    }
}
