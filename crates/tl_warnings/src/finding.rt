// The warnings of a text, in its order.

ghost use Rattle.std.specs.Prelude.{◌≡◌, false, IfOk, OnOk};
ghost use Rattle.tl_warnings.specs.Walking.{BlockWalks};
ghost use Rattle.tl_warnings.specs.Finding.{unless as unless_lem, ValueWarns, ValuesWarn, NamedWarns, declared as declared_lem, PlaceWarns, LockedWarns, AskedWarns, BlockWarns, StatementWarns, ElseWarns, ArgumentWarns, ArgumentsWarn, else_warned, ProcedureWarns, ParameterWarns, ParametersWarn, PartWarns, DeclarationWarns, DeclarationsWarn, AreWarnings};

use crate::failing::{action_may_fail, block_may_fail};
use crate::reading::block_reads;
use crate::walking::block_walks;
use crate::warning::{Needless, Warning};
use std::alloc::{AllocError, Global};
use tl_syntax::parsed::{
    Action, Declaration, Name, Otherwise, Parameter, Part, Place, Procedure, Question, Statement,
    StatementForm,
};
use tl_syntax::{Syntax, SyntaxFault, parse};

// Warns of what isn't needed.
fn unless(
    is_needed: bool,
    needless: Needless,
    offset: usize,
    found: &mut Vec<Warning>,
) -> Result<(), AllocError>
    ensures { OnOk result (found.new.items ≡ unless_lem is_needed needless offset found.old.items) }
{
    if !is_needed {
        found.push(Warning { needless, offset })?;
    }
    Ok(())
}

// A value, whose name is known in these statements.
fn value(name: Name, known: &[Statement], found: &mut Vec<Warning>) -> Result<(), AllocError>
    ensures { OnOk result (ValueWarns name known.now found.old.items found.new.items) }
{
    let is_read = block_reads(name.symbol, known);
    unless(is_read, Needless::Value, name.offset, found)
}

// The values of these names.
fn values(names: &[Name], known: &[Statement], found: &mut Vec<Warning>) -> Result<(), AllocError>
    ensures { OnOk result (ValuesWarn known.now found.old.items names.now found.new.items) }
{
    for name in names {
        value(*name, known, found)?;
    }
    Ok(())
}

// The value of that name, if there is a name.
fn named(
    name: Option<Name>,
    known: &[Statement],
    found: &mut Vec<Warning>,
) -> Result<(), AllocError>
    ensures { OnOk result (NamedWarns known.now found.old.items name found.new.items) }
{
    match name {
        Some(name) => value(name, known, found),
        None => Ok(()),
    }
}

// The name of the value that an action declares for the rest of its block.
fn declared(action: &Action) -> Option<Name>
    ensures { result ≡ declared_lem action.now }
{
    match action {
        Action::Let { name, .. } => Some(*name),
        _ => None,
    }
}

// A node, whose name is known in these statements.
fn node(name: Name, known: &[Statement], found: &mut Vec<Warning>) -> Result<(), AllocError>
    ensures { OnOk result (BlockWalks name.symbol.0 false known.now found.old.items found.new.items) }
{
    block_walks(name.symbol, known, false, found)
}

fn placed(place: &Place, known: &[Statement], found: &mut Vec<Warning>) -> Result<(), AllocError>
    ensures { OnOk result (PlaceWarns known.now found.old.items place.now found.new.items) }
{
    match place {
        Place::Node { name, .. } => node(*name, known, found),
        Place::Child(child) => node(child.name, known, found),
        Place::Pair(first, second) => {
            node(first.name, known, found)?;
            node(second.name, known, found)
        }
    }
}

// The nodes that an action locks for the rest of its block.
fn locked(action: &Action, rest: &[Statement], found: &mut Vec<Warning>) -> Result<(), AllocError>
    ensures { OnOk result (LockedWarns rest.now found.old.items action.now found.new.items) }
{
    match action {
        Action::Let { .. } => Ok(()),
        Action::Assign { .. } => Ok(()),
        Action::Write(_, _) => Ok(()),
        Action::Emit(_) => Ok(()),
        Action::Require(_, _) => Ok(()),
        Action::Lock(place) => placed(place, rest, found),
        Action::Descend { .. } => Ok(()),
        Action::Take { .. } => Ok(()),
        Action::Free(_) => Ok(()),
        Action::Leave(_) => Ok(()),
        Action::Fail(_) => Ok(()),
        Action::BreakWith(_) => Ok(()),
        Action::Use { .. } => Ok(()),
    }
}

// The nodes that an `if` locks for its first block.
fn asked(
    question: &Question,
    body: &[Statement],
    found: &mut Vec<Warning>,
) -> Result<(), AllocError>
    ensures { OnOk result (AskedWarns body.now found.old.items question.now found.new.items) }
{
    match question {
        Question::Condition(_) => Ok(()),
        Question::Lock(place) => placed(place, body, found),
    }
}

#[cycle(finding)]
fn block(statements: &[Statement], found: &mut Vec<Warning>) -> Result<(), AllocError>
    ensures { OnOk result (BlockWarns statements.now found.old.items found.new.items) }
{
    for (index, one) in statements.iter().enumerate() {
        statement(one, &statements[index + 1..], found)?;
    }
    Ok(())
}

#[cycle(finding)]
fn statement(
    statement: &Statement,
    rest: &[Statement],
    found: &mut Vec<Warning>,
) -> Result<(), AllocError>
    ensures { OnOk result (StatementWarns statement.now.offset statement.now.form rest.now found.old.items found.new.items) }
{
    match &statement.form {
        StatementForm::Act(action, otherwise) => {
            named(declared(action), rest, found)?;
            locked(action, rest, found)?;
            else_of(action_may_fail(action), otherwise, found)
        }
        StatementForm::Try(why, body, handler) => {
            let may_fail = block_may_fail(body);
            unless(may_fail, Needless::Try, statement.offset, found)?;
            block(body, found)?;
            named(*why, handler, found)?;
            block(handler, found)
        }
        StatementForm::If(question, body, otherwise) => {
            asked(question, body, found)?;
            block(body, found)?;
            block(otherwise, found)
        }
        StatementForm::Repeat { body, .. } => block(body, found),
        StatementForm::ForEach {
            child,
            index,
            body,
            ..
        } => {
            named(*index, body, found)?;
            node(*child, body, found)?;
            block(body, found)
        }
        StatementForm::Block(body) => block(body, found),
        StatementForm::Search(turns, names, hit, otherwise) => {
            block(turns, found)?;
            values(names, hit, found)?;
            block(hit, found)?;
            block(otherwise, found)
        }
    }
}

// The `else` of an action that may fail or may not.
#[cycle(finding)]
fn else_of(
    may_fail: bool,
    otherwise: &Option<Otherwise>,
    found: &mut Vec<Warning>,
) -> Result<(), AllocError>
    ensures { OnOk result (ElseWarns may_fail otherwise.now found.old.items found.new.items) }
{
    match otherwise {
        Some(otherwise) => {
            unless(may_fail, Needless::Else, otherwise.offset, found)?;
            block(&otherwise.body, found)
        }
        None => Ok(()),
    }
}

fn argument(procedure: &Procedure, name: Name, found: &mut Vec<Warning>) -> Result<(), AllocError>
    ensures { OnOk result (ArgumentWarns procedure.now name found.old.items found.new.items) }
{
    let body = block_reads(name.symbol, &procedure.body);
    let otherwise = block_reads(name.symbol, &procedure.otherwise);
    unless(body | otherwise, Needless::Value, name.offset, found)
}

fn arguments(
    procedure: &Procedure,
    names: &[Name],
    found: &mut Vec<Warning>,
) -> Result<(), AllocError>
    ensures { OnOk result (ArgumentsWarn procedure.now found.old.items names.now found.new.items) }
{
    for name in names {
        argument(procedure, *name, found)?;
    }
    Ok(())
}

// The `else` of a procedure whose body may fail or may not. An absent one is empty.
fn else_of_procedure(
    may_fail: bool,
    otherwise: &[Statement],
    found: &mut Vec<Warning>,
) -> Result<(), AllocError>
    ensures { OnOk result (found.new.items ≡ else_warned may_fail otherwise.now found.old.items) }
{
    match otherwise.first() {
        Some(first) => unless(may_fail, Needless::Else, first.offset, found),
        None => Ok(()),
    }
}

fn procedure(procedure: &Procedure, found: &mut Vec<Warning>) -> Result<(), AllocError>
    ensures { OnOk result (ProcedureWarns procedure.now found.old.items found.new.items) }
{
    arguments(procedure, &procedure.arguments, found)?;
    block(&procedure.body, found)?;
    let may_fail = block_may_fail(&procedure.body);
    named(procedure.why, &procedure.otherwise, found)?;
    else_of_procedure(may_fail, &procedure.otherwise, found)?;
    block(&procedure.otherwise, found)
}

// A number that a part is given, or a node, whose name may stay unused.
fn parameter(part: &Part, parameter: Parameter, found: &mut Vec<Warning>) -> Result<(), AllocError>
    ensures { OnOk result (ParameterWarns part.now found.old.items parameter found.new.items) }
{
    match parameter {
        Parameter::Node(name) => node(name, &part.body, found),
        Parameter::Variable(_) => Ok(()),
        Parameter::Value(name) => value(name, &part.body, found),
    }
}

fn parameters(part: &Part, names: &[Parameter], found: &mut Vec<Warning>) -> Result<(), AllocError>
    ensures { OnOk result (ParametersWarn part.now found.old.items names.now found.new.items) }
{
    for name in names {
        parameter(part, *name, found)?;
    }
    Ok(())
}

fn part(part: &Part, found: &mut Vec<Warning>) -> Result<(), AllocError>
    ensures { OnOk result (PartWarns part.now found.old.items found.new.items) }
{
    parameters(part, &part.parameters, found)?;
    block(&part.body, found)
}

fn declaration(declaration: &Declaration, found: &mut Vec<Warning>) -> Result<(), AllocError>
    ensures { OnOk result (DeclarationWarns found.old.items declaration.now found.new.items) }
{
    match declaration {
        Declaration::Field { .. } => Ok(()),
        Declaration::Constant { .. } => Ok(()),
        Declaration::Procedure(one) => procedure(one, found),
        Declaration::Part(one) => part(one, found),
    }
}

fn declarations(all: &[Declaration], found: &mut Vec<Warning>) -> Result<(), AllocError>
    ensures { OnOk result (DeclarationsWarn found.old.items all.now found.new.items) }
{
    for one in all {
        declaration(one, found)?;
    }
    Ok(())
}

/// What a text doesn't need, in the order of the text: each argument, number that a part is given, value of a `let` and index of a loop that nothing reads; each `else` of a
/// statement, a declaration or a procedure, and each `try`, where nothing can fail before it. Where a node's name is declared, each
/// loop over its children that may not go through all, since one may be locked before its turn.
///
/// Otherwise the first fault of the text's tokens or grammar. Names are not looked up.
pub fn warnings(alloc: Global, text: &[u8]) -> Result<Vec<Warning>, SyntaxFault>
    ensures { IfOk result (λ found. AreWarnings text.now found.items) }
{
    let Syntax {
        declarations: read,
        names: _,
    } = parse(alloc, text)?;
    let mut found = Vec::new(alloc);
    declarations(&read, &mut found)?;
    Ok(found)
}
