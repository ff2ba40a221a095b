// What is held where the paths through a statement lead.

ghost use Rattle.std.specs.Prelude.{◌≡◌, List, [], ◌∷◌, ◌++◌, Some, None, option_map, is_some};
ghost use Rattle.tl_compiler.specs.NodeSets.{nodes_of, nodes_at, AreThose};
ghost use Rattle.tl_lowering.specs.Outcomes.{may_fail, condition_may_fail, locked, unlocked, here_if, handled_by, behind_loop, after, fails, breaks};
ghost use Rattle.tl_lowering.specs.Sets.{Nodes, both_of, all_of};

use crate::node_set::{NodeSet, NodeSets, common};
use tl_lowering::{Condition, Expression, Place, Statement};

/// Which registers hold a node: after a statement, if it goes on; when it fails; and which do at all of its failures, and
/// whenever it breaks out of a loop.
#[derive(Clone, Copy)]
pub struct Outcomes {
    pub after: Option<NodeSet>,
    pub fails: NodeSets,
    failed: Option<NodeSet>,
    broken: Option<NodeSet>,
}

impl Outcomes {
    const NOWHERE: Outcomes = Outcomes {
        after: None,
        fails: NodeSets::NONE,
        failed: None,
        broken: None,
    };

    fn on(held: NodeSet) -> Outcomes
        ensures after { nodes_at result.after ≡ Some (nodes_of held) }
        ensures fails { AreThose result.fails [] }
        ensures failed { result.failed ≡ None }
        ensures broken { result.broken ≡ None }
    {
        Outcomes {
            after: Some(held),
            ..Outcomes::NOWHERE
        }
    }

    fn failing(self, held: NodeSet) -> Outcomes
        ensures after { result.after ≡ self.after }
        ensures fails { (list : List Nodes) → AreThose self.fails list → AreThose result.fails (nodes_of held ∷ list) }
        ensures failed { nodes_at result.failed ≡ both_of (Some (nodes_of held)) (nodes_at self.failed) }
        ensures broken { result.broken ≡ self.broken }
    {
        Outcomes {
            fails: self.fails.with(held),
            failed: common(Some(held), self.failed),
            ..self
        }
    }

    fn failing_if(self, may_fail: bool, held: NodeSet) -> Outcomes
        ensures after { result.after ≡ self.after }
        ensures fails { (list : List Nodes) → AreThose self.fails list → AreThose result.fails (here_if may_fail (nodes_of held) ++ list) }
        ensures failed { nodes_at result.failed ≡ both_of (all_of (here_if may_fail (nodes_of held))) (nodes_at self.failed) }
        ensures broken { result.broken ≡ self.broken }
    {
        if may_fail { self.failing(held) } else { self }
    }

    // The first part and then the second.
    fn then(self, second: &Outcomes) -> Outcomes
        ensures after { result.after ≡ second.now.after }
        ensures fails { (list more : List Nodes) → AreThose self.fails list → AreThose second.now.fails more → AreThose result.fails (list ++ more) }
        ensures failed { nodes_at result.failed ≡ both_of (nodes_at self.failed) (nodes_at second.now.failed) }
        ensures broken { nodes_at result.broken ≡ both_of (nodes_at self.broken) (nodes_at second.now.broken) }
    {
        Outcomes {
            after: second.after,
            fails: self.fails.or(&second.fails),
            failed: common(self.failed, second.failed),
            broken: common(self.broken, second.broken),
        }
    }

    // One part or the other.
    fn or(self, other: &Outcomes) -> Outcomes
        ensures after { nodes_at result.after ≡ both_of (nodes_at self.after) (nodes_at other.now.after) }
        ensures fails { (list more : List Nodes) → AreThose self.fails list → AreThose other.now.fails more → AreThose result.fails (list ++ more) }
        ensures failed { nodes_at result.failed ≡ both_of (nodes_at self.failed) (nodes_at other.now.failed) }
        ensures broken { nodes_at result.broken ≡ both_of (nodes_at self.broken) (nodes_at other.now.broken) }
    {
        Outcomes {
            after: common(self.after, other.after),
            ..self.then(other)
        }
    }

    fn without(self, place: &Place) -> Outcomes
        ensures after { nodes_at result.after ≡ option_map (unlocked place.now) (nodes_at self.after) }
        ensures fails { result.fails ≡ self.fails }
        ensures failed { result.failed ≡ self.failed }
        ensures broken { result.broken ≡ self.broken }
    {
        let after = match self.after {
            Some(after) => Some(unlocked(place, after)),
            None => None,
        };
        Outcomes { after, ..self }
    }

    /// What is held when the failure of a statement that began with `held` is handled.
    pub fn handled(&self, held: NodeSet) -> NodeSet
        ensures { nodes_of result ≡ handled_by (nodes_of held) (nodes_at self.now.failed) }
    {
        match self.failed {
            Some(failed) => failed.and(held),
            None => held,
        }
    }

    // The statement, or the handler of its failure.
    fn handled_by(&self, handler: &Outcomes) -> Outcomes
        ensures after { nodes_at result.after ≡ both_of (nodes_at self.now.after) (nodes_at handler.now.after) }
        ensures fails { result.fails ≡ handler.now.fails }
        ensures failed { result.failed ≡ handler.now.failed }
        ensures broken { nodes_at result.broken ≡ both_of (nodes_at self.now.broken) (nodes_at handler.now.broken) }
    {
        Outcomes {
            after: common(self.after, handler.after),
            fails: handler.fails,
            failed: handler.failed,
            broken: common(self.broken, handler.broken),
        }
    }

    // A loop with this body, which began with `held`. `may_end` says whether the loop may end before its body does.
    fn repeated(&self, held: NodeSet, may_end: bool) -> Outcomes
        ensures after { (list : List Nodes) → nodes_at self.now.broken ≡ all_of list → nodes_at result.after ≡ behind_loop may_end (nodes_at self.now.after) list (nodes_of held) }
        ensures fails { result.fails ≡ self.now.fails }
        ensures failed { result.failed ≡ self.now.failed }
        ensures broken { result.broken ≡ None }
    {
        let ended = if may_end || self.after.is_some() {
            Some(held)
        } else {
            None
        };
        let after = match common(ended, self.broken) {
            Some(after) => Some(after.and(held)),
            None => None,
        };
        Outcomes {
            after,
            fails: self.fails,
            failed: self.failed,
            broken: None,
        }
    }
}

/// Whether the expression contains an operation, which may fail.
pub fn may_fail(expression: &Expression) -> bool
    ensures { result ≡ may_fail expression.now }
{
    matches!(*expression, Expression::Calculated(_, _, _))
}

fn condition_may_fail(condition: &Condition) -> bool
    ensures { result ≡ condition_may_fail condition.now }
{
    match condition {
        Condition::Less(left, right)
        | Condition::Greater(left, right)
        | Condition::Equal(left, right) => may_fail(left) || may_fail(right),
        Condition::Not(inner) => condition_may_fail(inner),
        Condition::And(first, second) => condition_may_fail(first) || condition_may_fail(second),
    }
}

/// What is held once the place is locked.
pub fn locked(place: &Place, held: NodeSet) -> NodeSet
    ensures { nodes_of result ≡ locked place.now (nodes_of held) }
{
    match *place {
        Place::Node(register, _) | Place::Child(register, _, _) => held.with(register),
        Place::Pair { first, second, .. } => held.with(first).with(second),
    }
}

/// What is held once the place is free again.
pub fn unlocked(place: &Place, held: NodeSet) -> NodeSet
    ensures { nodes_of result ≡ unlocked place.now (nodes_of held) }
{
    match *place {
        Place::Node(register, _) | Place::Child(register, _, _) => held.without(register),
        Place::Pair { first, second, .. } => held.without(first).without(second),
    }
}

/// The outcomes of a statement that begins with these registers held.
#[tactic(auto, using(crate::proofs::SetLists::all_joined))]
pub fn outcomes_of(statement: &Statement, held: NodeSet) -> Outcomes
    ensures after { nodes_at result.after ≡ after statement.now (nodes_of held) }
    ensures fails { AreThose result.fails (fails statement.now (nodes_of held)) }
    ensures failed { nodes_at result.failed ≡ all_of (fails statement.now (nodes_of held)) }
    ensures broken { nodes_at result.broken ≡ all_of (breaks statement.now (nodes_of held)) }
{
    match statement {
        Statement::Skip => Outcomes::on(held),
        Statement::Sequence(first, second) => {
            let first = outcomes_of(first, held);
            match first.after {
                Some(after) => first.then(&outcomes_of(second, after)),
                None => first,
            }
        }
        Statement::Assign(_, number) => Outcomes::on(held).failing_if(may_fail(number), held),
        Statement::Write(_, _, number) => Outcomes::on(held).failing_if(may_fail(number), held),
        Statement::Emit(number) => Outcomes::on(held).failing_if(may_fail(number), held),
        Statement::Free(node) => Outcomes::on(held.without(*node)),
        Statement::Take(_, node) => Outcomes::on(held.without(*node)),
        Statement::Descend(_, _) => Outcomes::on(held).failing(held),
        Statement::Break => Outcomes {
            broken: Some(held),
            ..Outcomes::NOWHERE
        },
        Statement::Return => Outcomes::NOWHERE,
        Statement::Fail => Outcomes::NOWHERE.failing(held),
        Statement::If(condition, first, second) => {
            let first = outcomes_of(first, held);
            let second = outcomes_of(second, held);
            first
                .or(&second)
                .failing_if(condition_may_fail(condition), held)
        }
        Statement::Let(_, number, body) => {
            outcomes_of(body, held).failing_if(may_fail(number), held)
        }
        Statement::LetElse(_, _, body, otherwise) => {
            let body = outcomes_of(body, held);
            body.or(&outcomes_of(otherwise, held))
        }
        Statement::Lock(place, body, otherwise) => {
            let body = outcomes_of(body, locked(place, held));
            body.or(&outcomes_of(otherwise, held)).without(place)
        }
        Statement::Try(body, handler) => {
            let body = outcomes_of(body, held);
            body.handled_by(&outcomes_of(handler, body.handled(held)))
        }
        Statement::Repeat(_, body) => outcomes_of(body, held).repeated(held, false),
        Statement::RepeatUpTo(_, _, body) => {
            outcomes_of(body, held).repeated(held, true).failing(held)
        }
        Statement::At(_, inner) => outcomes_of(inner, held),
    }
}
