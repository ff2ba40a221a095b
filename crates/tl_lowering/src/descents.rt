// The nodes from which statements descend.

ghost use Rattle.std.specs.Prelude.{◌≡◌, ℕ, ◌&&◌, not, nat_eq};
ghost use Rattle.tl_lowering.specs.Entering.{turn_descends};
ghost use Rattle.tl_lowering.specs.Passing.{locks_in, descends_from};
ghost use Rattle.tl_lowering.specs.Paths.{bits};
ghost use Rattle.tl_lowering.specs.Sets.{holds};

use crate::loops::Repetition;
use crate::paths::Held;
use crate::program::{Place, Statement};
use crate::scope::Scope;
use tl_instr::NodeRegister;
use tl_syntax::parsed::{self, Action, Expression, Form, Name, Otherwise, StatementForm};

fn bit(register: NodeRegister) -> u8
    ensures { (n : ℕ) → holds (bits result) n ≡ nat_eq register n }
{
    Held::NOTHING.with(register).nodes
}

// The bits of these nodes but for the register's.
fn without(nodes: u8, register: NodeRegister) -> u8
    ensures { (n : ℕ) → holds (bits result) n ≡ (holds (bits nodes) n && not (nat_eq register n)) }
{
    let all = Held {
        nodes,
        ..Held::NOTHING
    };
    all.without(register).nodes
}

// The bits of these nodes but for those that the lock puts in other nodes' place.
#[tactic(auto, using(crate::proofs::DescendLemmas::neither))]
fn unlocked(nodes: u8, place: &Place) -> u8
    ensures { (n : ℕ) → holds (bits result) n ≡ (holds (bits nodes) n && not (locks_in place.now n)) }
{
    match place {
        Place::Node(node, _) | Place::Child(node, _, _) => without(nodes, *node),
        Place::Pair { first, second, .. } => without(without(nodes, *first), *second),
    }
}

/// A bit for each node register from whose node the statement descends.
#[tactic(auto, using(crate::proofs::BitLemmas::either_bits, crate::proofs::BitLemmas::no_bit))]
pub fn descended(statement: &Statement) -> u8
    ensures { (n : ℕ) → holds (bits result) n ≡ descends_from statement.now n }
{
    match statement {
        Statement::Skip
        | Statement::Assign(_, _)
        | Statement::Write(_, _, _)
        | Statement::Emit(_)
        | Statement::Free(_)
        | Statement::Break
        | Statement::Return
        | Statement::Fail => 0,
        Statement::Descend(node, _) | Statement::Take(node, _) => bit(*node),
        Statement::Sequence(first, second)
        | Statement::If(_, first, second)
        | Statement::LetElse(_, _, first, second)
        | Statement::Try(first, second) => descended(first) | descended(second),
        Statement::Lock(place, body, otherwise) => {
            unlocked(descended(body), place) | descended(otherwise)
        }
        Statement::Let(_, _, body)
        | Statement::Repeat(_, body)
        | Statement::RepeatUpTo(_, _, body)
        | Statement::At(_, body) => descended(body),
    }
}

/// The same of a loop's turn: its child belongs to the loop.
pub fn passed_down(repetition: &Repetition, body: &Statement) -> u8
    ensures { (n : ℕ) → holds (bits result) n ≡ turn_descends repetition.now body.now n }
{
    let nodes = descended(body);
    match repetition {
        Repetition::Times(_) | Repetition::UpTo(_, _) => nodes,
        Repetition::Children(visit) => without(nodes, visit.child),
    }
}

// From which nodes a text may descend. It stands on no promise: what is read of the text says which nodes those are.
impl Scope {
    fn node_bit(&self, name: Name) -> u8 {
        match self.register_of(name) {
            Some(register) => bit(register),
            None => 0,
        }
    }

    // A part may descend from each node that it is given.
    fn given_bits(&self, arguments: &[Expression]) -> u8 {
        let mut nodes = 0;
        for argument in arguments {
            if let Form::Named(name) = &argument.form {
                nodes |= self.node_bit(*name);
            }
        }
        nodes
    }

    /// A bit for each node register from whose node these statements may descend.
    #[cycle(descents)]
    pub fn may_descend(&self, statements: &[parsed::Statement]) -> u8 {
        let mut nodes = 0;
        for statement in statements {
            nodes |= self.may_descend_in(&statement.form);
        }
        nodes
    }

    #[cycle(descents)]
    fn may_descend_in(&self, form: &StatementForm) -> u8 {
        match form {
            StatementForm::Act(action, otherwise) => {
                let nodes = match action {
                    Action::Descend { node, .. } | Action::Take { node, .. } => self.node_bit(
                        *node,
                    ),
                    Action::Use { arguments, .. } => self.given_bits(arguments),
                    _ => 0,
                };
                nodes | self.may_descend_else(otherwise)
            }
            StatementForm::Try(_, first, second) | StatementForm::If(_, first, second) => {
                self.may_descend(first) | self.may_descend(second)
            }
            StatementForm::Repeat { body, .. }
            | StatementForm::ForEach { body, .. }
            | StatementForm::Block(body) => self.may_descend(body),
            StatementForm::Search(turns, _, found, otherwise) => {
                self.may_descend(turns) | self.may_descend(found) | self.may_descend(otherwise)
            }
        }
    }

    #[cycle(descents)]
    fn may_descend_else(&self, otherwise: &Option<Otherwise>) -> u8 {
        match otherwise {
            Some(otherwise) => self.may_descend(&otherwise.body),
            None => 0,
        }
    }
}
