// What may have been written before a place, and the check of an atomic procedure.

ghost use Rattle.std.specs.Prelude.{◌≡◌, ◌||◌, true, false, OnOk};
ghost use Rattle.std.specs.Option.{unwrap_or};
ghost use Rattle.tl_lowering.specs.Atomic.{or_of, on as on_path, failing_if as failing_there, either as either_of, then_by, behind_turns, written as written_lem, body_written as body_written_lem, IsAtomic};

use crate::program::Statement;
use crate::values::{condition_may_fail, may_fail};
use crate::walks::is_walk;
use tl_syntax::{SyntaxFault, Wrong};

/// Whether a field may have been written on a path to each place to which a statement leads: on, to the handler of a failure, and
/// out of the loop. None stands for no path.
#[derive(Clone, Copy, Debug, PartialEq, Eq)]
pub struct Ways {
    pub after: Option<bool>,
    pub fails: Option<bool>,
    pub breaks: Option<bool>,
}

// Where paths join.
fn join(first: Option<bool>, second: Option<bool>) -> Option<bool>
    ensures { result ≡ or_of first second }
{
    match (first, second) {
        (None, other) | (other, None) => other,
        (Some(first), Some(second)) => Some(first || second),
    }
}

impl Ways {
    const NOWHERE: Ways = Ways {
        after: None,
        fails: None,
        breaks: None,
    };

    fn on(before: bool) -> Ways
        ensures { result ≡ on_path before }
    {
        Ways {
            after: Some(before),
            ..Ways::NOWHERE
        }
    }

    fn failing_if(self, may_fail: bool, before: bool) -> Ways
        ensures { result ≡ failing_there may_fail before self }
    {
        if !may_fail {
            return self;
        }
        Ways {
            fails: join(Some(before), self.fails),
            ..self
        }
    }

    fn or(self, other: Ways) -> Ways
        ensures { result ≡ either_of self other }
    {
        Ways {
            after: join(self.after, other.after),
            fails: join(self.fails, other.fails),
            breaks: join(self.breaks, other.breaks),
        }
    }

    // A loop whose turns these are. If `may_skip` says so, it may end or fail before its first turn.
    fn turned(self, may_skip: bool, before: bool) -> Ways
        ensures { result ≡ behind_turns may_skip before self }
    {
        let after = join(self.after, self.breaks);
        if may_skip {
            return Ways {
                after: join(Some(before), after),
                fails: join(Some(before), self.fails),
                breaks: None,
            };
        }
        Ways {
            after,
            fails: self.fails,
            breaks: None,
        }
    }
}

// Whether a field may have been written before a turn of a loop: a turn may begin behind the first one.
fn before_turn(first: Ways, before: bool) -> bool
    ensures { result ≡ (before || unwrap_or first.after false) }
{
    before || first.after.unwrap_or(false)
}

/// Where the paths through a statement lead. `before` says whether a field may have been written before it.
#[cycle(written)]
pub fn written(statement: &Statement, before: bool) -> Ways
    ensures { result ≡ written_lem statement.now before }
{
    match statement {
        Statement::Skip | Statement::Free(_) | Statement::Take(_, _) => Ways::on(before),
        Statement::Sequence(first, second) => {
            let ways = written(first, before);
            let Some(between) = ways.after else {
                return ways;
            };
            let next = written(second, between);
            Ways {
                after: next.after,
                ..ways.or(next)
            }
        }
        Statement::Assign(_, number) | Statement::Emit(number) => {
            Ways::on(before).failing_if(may_fail(number), before)
        }
        Statement::Write(_, _, number) => Ways::on(true).failing_if(may_fail(number), before),
        Statement::Descend(_, _) => Ways::on(before).failing_if(true, before),
        Statement::Break => Ways {
            breaks: Some(before),
            ..Ways::NOWHERE
        },
        Statement::Return => Ways::NOWHERE,
        Statement::Fail => Ways {
            fails: Some(before),
            ..Ways::NOWHERE
        },
        Statement::If(condition, first, second) => {
            let ways = written(first, before).or(written(second, before));
            ways.failing_if(condition_may_fail(condition), before)
        }
        Statement::Let(register, number, body) => {
            let ways = if is_walk(*register, number, body) {
                let start = before_turn(body_written(body, before), before);
                body_written(body, start).turned(true, before)
            } else {
                written(body, before)
            };
            ways.failing_if(may_fail(number), before)
        }
        Statement::LetElse(_, _, body, otherwise) | Statement::Lock(_, body, otherwise) => {
            written(body, before).or(written(otherwise, before))
        }
        Statement::Try(body, handler) => {
            let ways = written(body, before);
            let other = written(handler, ways.fails.unwrap_or(before));
            Ways {
                fails: other.fails,
                ..ways.or(other)
            }
        }
        Statement::Repeat(_, body) => {
            let start = before_turn(written(body, before), before);
            written(body, start).turned(false, before)
        }
        Statement::RepeatUpTo(_, _, body) => {
            let start = before_turn(written(body, before), before);
            written(body, start).turned(true, before)
        }
        Statement::At(_, statement) => written(statement, before),
    }
}

// The same of the body of a loop over children, which stands behind the lock of each turn.
#[cycle(written)]
fn body_written(statement: &Statement, before: bool) -> Ways
    ensures { result ≡ body_written_lem statement.now before }
{
    match statement {
        Statement::RepeatUpTo(_, _, turn) => body_written(turn, before),
        Statement::Sequence(_, lock) => body_written(lock, before),
        Statement::Lock(_, body, _) => written(body, before),
        _ => Ways::NOWHERE,
    }
}

// Whether a lock's `else` leaves the block, as that of a declaration does, which stands in the text before the rest of the block.
fn leaves(otherwise: &Statement) -> bool {
    written(otherwise, false).after.is_none()
}

// The offset of the first statement in it whose failure may follow a write and isn't handled. None if that is a failure of its own,
// or has no offset.
#[cycle(late)]
fn late_failure(statement: &Statement, before: bool) -> Option<usize> {
    match statement {
        Statement::At(offset, inner) => {
            if written(inner, before).fails != Some(true) {
                return None;
            }
            late_failure(inner, before).or(Some(*offset))
        }
        Statement::Sequence(first, second) => match late_failure(first, before) {
            Some(offset) => Some(offset),
            None => late_failure(second, written(first, before).after?),
        },
        Statement::If(condition, first, second) => {
            if before && condition_may_fail(condition) {
                return None;
            }
            late_failure(first, before).or(late_failure(second, before))
        }
        Statement::LetElse(_, _, body, otherwise) => {
            late_failure(otherwise, before).or(late_failure(body, before))
        }
        Statement::Lock(_, body, otherwise) => {
            if before && matches!(**otherwise, Statement::Fail) {
                return None;
            }
            if leaves(otherwise) {
                late_failure(otherwise, before).or(late_failure(body, before))
            } else {
                late_failure(body, before).or(late_failure(otherwise, before))
            }
        }
        Statement::Let(register, number, body) => {
            if before && may_fail(number) {
                return None;
            }
            if is_walk(*register, number, body) {
                return late_in_body(body, before);
            }
            late_failure(body, before)
        }
        Statement::Try(body, handler) => {
            late_failure(handler, written(body, before).fails.unwrap_or(before))
        }
        Statement::Repeat(_, body) => {
            late_failure(body, before_turn(written(body, before), before))
        }
        Statement::RepeatUpTo(_, _, body) => {
            if before {
                return None;
            }
            late_failure(body, before_turn(written(body, before), before))
        }
        _ => None,
    }
}

// The same of a loop over children. None too if the loop fails before its first turn.
#[cycle(late)]
fn late_in_body(statement: &Statement, before: bool) -> Option<usize> {
    match statement {
        Statement::RepeatUpTo(_, _, turn) => {
            if before {
                return None;
            }
            late_in_body(turn, before_turn(body_written(turn, before), before))
        }
        Statement::Sequence(_, lock) => late_in_body(lock, before),
        Statement::Lock(_, body, _) => late_failure(body, before),
        _ => None,
    }
}

/// 299 if a procedure is atomic, and a failure that the statement doesn't handle may follow a write: at the part that fails, or at
/// `offset`.
pub fn check_atomic(is_atomic: bool, body: &Statement, offset: usize) -> Result<(), SyntaxFault>
    ensures { OnOk result (is_atomic ≡ true → IsAtomic body.now) }
{
    if is_atomic && written(body, false).fails == Some(true) {
        let place = late_failure(body, false).unwrap_or(offset);
        return Err(SyntaxFault::at(Wrong::WrittenBefore, place));
    }
    Ok(())
}
