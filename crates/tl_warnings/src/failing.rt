// What may fail, where each operation may, and each branch may be taken.

ghost use Rattle.std.specs.Prelude.{◌≡◌};
ghost use Rattle.tl_warnings.specs.Failing.{Fails, AnyFails, ChangeFails, WritesFail, is_fail as is_fail_lem, ActionFails, QuestionFails, BlockFails, StatementFails, ElseFails};

use tl_syntax::parsed::{
    Action, Change, Expression, Form, Leave, Otherwise, Question, Statement, StatementForm, Write,
};

// Whether computing the number or the condition may fail: whether there is an operation in it.
fn may_fail(expression: &Expression) -> bool
    ensures { Fails expression.now.form result }
{
    match &expression.form {
        Form::Number(_) => false,
        Form::Named(_) => false,
        Form::Field { .. } => false,
        Form::Children(_) => false,
        Form::Negated(_) => true,
        Form::Calculated(_, _, _) => true,
        Form::Compared(_, left, right) => may_fail(left) | may_fail(right),
        Form::Not(operand) => may_fail(operand),
        Form::And(first, second) => may_fail(first) | may_fail(second),
        Form::Or(first, second) => may_fail(first) | may_fail(second),
    }
}

fn any_may_fail(expressions: &[Expression]) -> bool
    ensures { AnyFails expressions.now result }
{
    let mut found = false;
    for expression in expressions {
        found |= may_fail(expression);
    }
    found
}

// A sum and a difference may fail.
fn change_may_fail(change: Change, value: &Expression) -> bool
    ensures { ChangeFails change value.now result }
{
    match change {
        Change::Set => may_fail(value),
        Change::Add => true,
        Change::Subtract => true,
    }
}

fn writes_may_fail(writes: &[Write]) -> bool
    ensures { WritesFail writes.now result }
{
    let mut found = false;
    for write in writes {
        found |= change_may_fail(write.change, &write.value);
    }
    found
}

fn is_fail(leave: Leave) -> bool
    ensures { result ≡ is_fail_lem leave }
{
    match leave {
        Leave::Fail => true,
        Leave::Break | Leave::Return => false,
    }
}

/// Whether the action may fail. Any part may: which one is used is not looked up.
pub fn action_may_fail(action: &Action) -> bool
    ensures { ActionFails action.now result }
{
    match action {
        Action::Let { value, .. } => may_fail(value),
        Action::Assign { change, value, .. } => change_may_fail(*change, value),
        Action::Write(first, others) => {
            change_may_fail(first.change, &first.value) | writes_may_fail(others)
        }
        Action::Emit(numbers) => any_may_fail(numbers),
        Action::Require(_, _) => true,
        Action::Lock(_) => true,
        Action::Descend { .. } => true,
        Action::Take { .. } => false,
        Action::Free(_) => false,
        Action::Leave(leave) => is_fail(*leave),
        Action::Fail(_) => true,
        Action::BreakWith(numbers) => any_may_fail(numbers),
        Action::Use { .. } => true,
    }
}

fn question_may_fail(question: &Question) -> bool
    ensures { QuestionFails question.now result }
{
    match question {
        Question::Condition(condition) => may_fail(condition),
        Question::Lock(_) => false,
    }
}

/// Whether one of the statements may fail.
#[cycle(failing)]
pub fn block_may_fail(statements: &[Statement]) -> bool
    ensures { BlockFails statements.now result }
{
    let mut found = false;
    for statement in statements {
        found |= statement_may_fail(statement);
    }
    found
}

#[cycle(failing)]
fn statement_may_fail(statement: &Statement) -> bool
    ensures { StatementFails statement.now.form result }
{
    match &statement.form {
        StatementForm::Act(action, otherwise) => action_may_fail(action) & else_may_fail(otherwise),
        StatementForm::Try(_, body, handler) => block_may_fail(body) & block_may_fail(handler),
        StatementForm::If(question, body, otherwise) => {
            question_may_fail(question) | (block_may_fail(body) | block_may_fail(otherwise))
        }
        StatementForm::Repeat { at_most, body, .. } => at_most.is_some() | block_may_fail(body),
        StatementForm::ForEach { .. } => true,
        StatementForm::Block(body) => block_may_fail(body),
        StatementForm::Search(turns, _, found, otherwise) => {
            block_may_fail(turns) | (block_may_fail(found) | block_may_fail(otherwise))
        }
    }
}

// A failure without an `else` stays one.
#[cycle(failing)]
fn else_may_fail(otherwise: &Option<Otherwise>) -> bool
    ensures { ElseFails otherwise.now result }
{
    match otherwise {
        Some(otherwise) => block_may_fail(&otherwise.body),
        None => true,
    }
}
