// Loops over the children of a node that may not go through all, since a child may be locked before its turn.

ghost use Rattle.std.specs.Prelude.{OnOk, ◌≡◌};
ghost use Rattle.tl_warnings.specs.Walking.{walk_warned, BlockWalks, NextWalks, FormWalks, ElseWalks};

use crate::locking::{action_locks, block_locks, question_locks};
use crate::passing::{block_passes, next_passes};
use crate::warning::{Needless, Warning};
use std::alloc::AllocError;
use tl_syntax::Symbol;
use tl_syntax::parsed::{Name, Otherwise, Statement, StatementForm};

// A loop over the children of `parent`, at the offset, of which one may be locked before its turn or not.
fn walk(
    node: Symbol,
    parent: Name,
    may_lock: bool,
    offset: usize,
    found: &mut Vec<Warning>,
) -> Result<(), AllocError>
    ensures { OnOk result (found.new.items ≡ walk_warned node.0 parent may_lock offset found.old.items) }
{
    if may_lock & (parent.symbol.0 == node.0) {
        found.push(Warning {
            needless: Needless::Passed,
            offset,
        })?;
    }
    Ok(())
}

/// The loops over children of the node in these statements, where `before` says whether a child of it may have been locked before.
#[cycle(walking)]
pub fn block_walks(
    node: Symbol,
    statements: &[Statement],
    before: bool,
    found: &mut Vec<Warning>,
) -> Result<(), AllocError>
    ensures { OnOk result (BlockWalks node.0 before statements.now found.old.items found.new.items) }
{
    let mut state = Some(before);
    for statement in statements {
        next_walks(node, statement, state, found)?;
        state = next_passes(node, statement, state);
    }
    Ok(())
}

#[cycle(walking)]
fn next_walks(
    node: Symbol,
    statement: &Statement,
    before: Option<bool>,
    found: &mut Vec<Warning>,
) -> Result<(), AllocError>
    ensures { OnOk result (NextWalks node.0 before statement.now.offset statement.now.form found.old.items found.new.items) }
{
    match before {
        Some(before) => statement_walks(node, statement, before, found),
        None => Ok(()),
    }
}

#[cycle(walking)]
fn statement_walks(
    node: Symbol,
    statement: &Statement,
    before: bool,
    found: &mut Vec<Warning>,
) -> Result<(), AllocError>
    ensures { OnOk result (FormWalks node.0 before statement.now.offset statement.now.form found.old.items found.new.items) }
{
    match &statement.form {
        StatementForm::Act(action, otherwise) => {
            let locks = action_locks(node, action);
            else_walks(node, otherwise, before | locks, found)
        }
        StatementForm::Try(_, body, handler) => {
            let locks = block_locks(node, body);
            block_walks(node, body, before, found)?;
            block_walks(node, handler, before | locks, found)
        }
        StatementForm::If(question, body, otherwise) => {
            let locks = question_locks(node, question);
            block_walks(node, body, before | locks, found)?;
            block_walks(node, otherwise, before, found)
        }
        StatementForm::Repeat { body, .. } => {
            let locks = block_locks(node, body);
            block_walks(node, body, before | locks, found)
        }
        StatementForm::ForEach { parent, body, .. } => {
            let goes_on = block_passes(node, body, false);
            let may_lock = before | goes_on.unwrap_or(false);
            walk(node, *parent, may_lock, statement.offset, found)?;
            let locks = (parent.symbol.0 == node.0) | block_locks(node, body);
            block_walks(node, body, before | locks, found)
        }
        StatementForm::Block(body) => block_walks(node, body, before, found),
        StatementForm::Search(turns, _, hit, otherwise) => {
            let locks = block_locks(node, turns);
            block_walks(node, turns, before, found)?;
            block_walks(node, hit, before | locks, found)?;
            block_walks(node, otherwise, before | locks, found)
        }
    }
}

#[cycle(walking)]
fn else_walks(
    node: Symbol,
    otherwise: &Option<Otherwise>,
    before: bool,
    found: &mut Vec<Warning>,
) -> Result<(), AllocError>
    ensures { OnOk result (ElseWalks node.0 before otherwise.now found.old.items found.new.items) }
{
    match otherwise {
        Some(otherwise) => block_walks(node, &otherwise.body, before, found),
        None => Ok(()),
    }
}
