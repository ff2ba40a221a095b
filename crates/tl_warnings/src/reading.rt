// What reads a value.

ghost use Rattle.std.specs.Prelude.{◌≡◌};
ghost use Rattle.tl_warnings.specs.Reading.{Reads, AnyReads, WritesRead, PlaceReads, QuestionReads, ReasonReads, changes as changes_lem, ActionReads, BlockReads, StatementReads, ElseReads};

use tl_syntax::Symbol;
use tl_syntax::parsed::{
    Action, Change, Expression, Form, Name, Otherwise, Place, Question, Statement, StatementForm,
    Write,
};

// Whether the expression reads the value of that name.
fn reads(value: Symbol, expression: &Expression) -> bool
    ensures { Reads value.0 expression.now.form result }
{
    match &expression.form {
        Form::Number(_) => false,
        Form::Field { .. } => false,
        Form::Children(_) => false,
        Form::Named(name) => name.symbol.0 == value.0,
        Form::Negated(operand) => reads(value, operand),
        Form::Calculated(_, left, right) => reads(value, left) | reads(value, right),
        Form::Compared(_, left, right) => reads(value, left) | reads(value, right),
        Form::Not(operand) => reads(value, operand),
        Form::And(first, second) => reads(value, first) | reads(value, second),
        Form::Or(first, second) => reads(value, first) | reads(value, second),
    }
}

pub fn any_reads(value: Symbol, expressions: &[Expression]) -> bool
    ensures { AnyReads value.0 expressions.now result }
{
    let mut found = false;
    for expression in expressions {
        found |= reads(value, expression);
    }
    found
}

fn writes_read(value: Symbol, writes: &[Write]) -> bool
    ensures { WritesRead value.0 writes.now result }
{
    let mut found = false;
    for write in writes {
        found |= reads(value, &write.value);
    }
    found
}

fn place_reads(value: Symbol, place: &Place) -> bool
    ensures { PlaceReads value.0 place.now result }
{
    match place {
        Place::Node { number, .. } => reads(value, number),
        Place::Child(child) => reads(value, &child.number),
        Place::Pair(first, second) => { reads(value, &first.number) | reads(value, &second.number) }
    }
}

// An assignment that adds to a value or subtracts from it reads it.
fn changes(change: Change, name: Name, value: Symbol) -> bool
    ensures { result ≡ changes_lem change name value.0 }
{
    match change {
        Change::Set => false,
        Change::Add | Change::Subtract => name.symbol.0 == value.0,
    }
}

// The code of a condition's failure, if it has one.
fn reason_reads(value: Symbol, code: &Option<Expression>) -> bool
    ensures { ReasonReads value.0 code.now result }
{
    match code {
        Some(code) => reads(value, code),
        None => false,
    }
}

fn action_reads(value: Symbol, action: &Action) -> bool
    ensures { ActionReads value.0 action.now result }
{
    match action {
        Action::Let { value: number, .. } => reads(value, number),
        Action::Assign {
            name,
            change,
            value: number,
        } => changes(*change, *name, value) | reads(value, number),
        Action::Write(first, others) => reads(value, &first.value) | writes_read(value, others),
        Action::Emit(numbers) => any_reads(value, numbers),
        Action::Require(condition, code) => reads(value, condition) | reason_reads(value, code),
        Action::Lock(place) => place_reads(value, place),
        Action::Descend { number, .. } => reads(value, number),
        Action::Take { .. } => false,
        Action::Free(_) => false,
        Action::Leave(_) => false,
        Action::Fail(code) => reads(value, code),
        Action::BreakWith(numbers) => any_reads(value, numbers),
        Action::Use { arguments, .. } => any_reads(value, arguments),
    }
}

fn question_reads(value: Symbol, question: &Question) -> bool
    ensures { QuestionReads value.0 question.now result }
{
    match question {
        Question::Condition(condition) => reads(value, condition),
        Question::Lock(place) => place_reads(value, place),
    }
}

/// Whether one of the statements reads the value of that name.
#[cycle(reading)]
pub fn block_reads(value: Symbol, statements: &[Statement]) -> bool
    ensures { BlockReads value.0 statements.now result }
{
    let mut found = false;
    for statement in statements {
        found |= statement_reads(value, statement);
    }
    found
}

#[cycle(reading)]
fn statement_reads(value: Symbol, statement: &Statement) -> bool
    ensures { StatementReads value.0 statement.now.form result }
{
    match &statement.form {
        StatementForm::Act(action, otherwise) => {
            action_reads(value, action) | else_reads(value, otherwise)
        }
        StatementForm::Try(_, body, handler) => block_reads(value, body)
            | block_reads(value, handler),
        StatementForm::If(question, body, otherwise) => {
            let asked = question_reads(value, question);
            asked | (block_reads(value, body) | block_reads(value, otherwise))
        }
        StatementForm::Repeat { turns, body, .. } => reads(value, turns) | block_reads(value, body),
        StatementForm::ForEach { body, .. } => block_reads(value, body),
        StatementForm::Block(body) => block_reads(value, body),
        StatementForm::Search(turns, _, found, otherwise) => {
            let searched = block_reads(value, turns);
            searched | (block_reads(value, found) | block_reads(value, otherwise))
        }
    }
}

#[cycle(reading)]
fn else_reads(value: Symbol, otherwise: &Option<Otherwise>) -> bool
    ensures { ElseReads value.0 otherwise.now result }
{
    match otherwise {
        Some(otherwise) => block_reads(value, &otherwise.body),
        None => false,
    }
}
