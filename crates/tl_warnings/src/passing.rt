// Whether a child of a node may have been locked on a path to a place, by the node's name. None stands for no path.

ghost use Rattle.std.specs.Prelude.{◌≡◌};
ghost use Rattle.tl_warnings.specs.Passing.{or_of, behind_action as behind_action_lem, BlockPasses, NextPasses, StatementPasses, ElsePasses};

use crate::locking::{action_locks, block_locks, question_locks};
use tl_syntax::Symbol;
use tl_syntax::parsed::{Action, Otherwise, Statement, StatementForm};

// Where paths join.
fn join(first: Option<bool>, second: Option<bool>) -> Option<bool>
    ensures { result ≡ or_of first second }
{
    match (first, second) {
        (None, other) | (other, None) => other,
        (Some(first), Some(second)) => Some(first | second),
    }
}

// Behind an action that locks a child of the node or doesn't. Behind a descent the name has another node.
fn behind_action(node: Symbol, action: &Action, locks: bool, before: bool) -> Option<bool>
    ensures { result ≡ behind_action_lem node.0 action.now locks before }
{
    match action {
        Action::Descend { node: name, .. } => Some(before & (name.symbol.0 != node.0)),
        Action::Take { node: name, .. } => Some(before & (name.symbol.0 != node.0)),
        Action::Leave(_) => None,
        Action::Fail(_) => None,
        Action::BreakWith(_) => None,
        _ => Some(before | locks),
    }
}

/// Behind the statements.
#[cycle(passing)]
pub fn block_passes(node: Symbol, statements: &[Statement], before: bool) -> Option<bool>
    ensures { BlockPasses node.0 before statements.now result }
{
    let mut state = Some(before);
    for statement in statements {
        state = next_passes(node, statement, state);
    }
    state
}

/// Behind the next statement of a block, if a path leads to it.
#[cycle(passing)]
pub fn next_passes(node: Symbol, statement: &Statement, before: Option<bool>) -> Option<bool>
    ensures { NextPasses node.0 before statement.now.form result }
{
    match before {
        Some(before) => statement_passes(node, statement, before),
        None => None,
    }
}

#[cycle(passing)]
fn statement_passes(node: Symbol, statement: &Statement, before: bool) -> Option<bool>
    ensures { StatementPasses node.0 before statement.now.form result }
{
    match &statement.form {
        StatementForm::Act(action, otherwise) => {
            let locks = action_locks(node, action);
            let other = else_passes(node, otherwise, before | locks);
            join(behind_action(node, action, locks, before), other)
        }
        StatementForm::Try(_, body, handler) => {
            let locks = block_locks(node, body);
            let first = block_passes(node, body, before);
            join(first, block_passes(node, handler, before | locks))
        }
        StatementForm::If(question, body, otherwise) => {
            let locks = question_locks(node, question);
            let first = block_passes(node, body, before | locks);
            join(first, block_passes(node, otherwise, before))
        }
        StatementForm::Repeat { body, .. } => Some(before | block_locks(node, body)),
        StatementForm::ForEach { parent, body, .. } => {
            let locks = (parent.symbol.0 == node.0) | block_locks(node, body);
            Some(before | locks)
        }
        StatementForm::Block(body) => block_passes(node, body, before),
        StatementForm::Search(turns, _, found, otherwise) => {
            let locks = block_locks(node, turns);
            let first = block_passes(node, found, before | locks);
            join(first, block_passes(node, otherwise, before | locks))
        }
    }
}

// Behind an `else`, before which a child of the node may have been locked. A failure without one leads nowhere.
#[cycle(passing)]
fn else_passes(node: Symbol, otherwise: &Option<Otherwise>, before: bool) -> Option<bool>
    ensures { ElsePasses node.0 before otherwise.now result }
{
    match otherwise {
        Some(otherwise) => block_passes(node, &otherwise.body, before),
        None => None,
    }
}
