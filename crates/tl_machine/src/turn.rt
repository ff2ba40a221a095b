// A call's turn.

ghost use Rattle.std.specs.Prelude.{◌≡◌, ◌↔◌, ℕ, [], length, IsTrue, IsOk, IfOk};
ghost use Rattle.std.specs.Arc.{arc_value};
ghost use Rattle.tl_tree.specs.Records.{Records};
ghost use Rattle.tl_machine.specs.Alone.{alone as run_alone};
ghost use Rattle.tl_machine.specs.Call.{reply_so_far};
ghost use Rattle.tl_machine.specs.BetweenSteps.{Steps, Locks, Frees, Ends};
ghost use Rattle.tl_machine.specs.Stopped.{after_lock, after_free};
ghost use Rattle.tl_machine.specs.Turns.{IsTurn, IsSegment, Wants, Stops, IfDid, IfStopped, left_of, with_call};
ghost use Rattle.tl_machine.specs.declared.want.Want.TheVariants as want;
ghost use Rattle.tl_machine.specs.declared.want.Stop.TheVariants as stop;

use crate::call::CallState;
use crate::fault::WrongArgs;
use crate::lent::LentTurn;
use crate::reply::Reply;
use crate::start;
use crate::want::{Advance, Stop, Want};
use std::alloc::AllocError;
use std::marker::Model;
use std::sync::Arc;
use tl_tree::{Record, Shape};
use tl_tree_locking::Action;
use tl_verify::Proc;

/// A call of a procedure on trees of a shape, somewhere between its start and its end. By the type, its state is one that
/// the procedure reaches on that shape: registers that must hold a node hold one, targets exist, and the budget isn't
/// spent.
#[derive(Debug, Drop)]
pub struct Turn {
    procedure: Arc<Proc>,
    shape: Arc<Shape>,
    call: CallState,
}

impl Model for Turn {
    ghost use Rattle.std.specs.Arc.{arc_value};
    ghost use Rattle.tl_machine.specs.Turns.{TurnValue, IsTurn};

    ghost Value = { TurnValue };

    ghost view = { λ t. record { code = arc_value t.procedure; parents = arc_value t.shape; call = t.call } };

    ghost invariant = { λ t. IsTurn (arc_value t.procedure).instrs (arc_value t.shape) t.call };
}

impl Turn {
    /// A call at its start. Takes no memory.
    ///
    /// 501 if the number of arguments isn't what the procedure takes.
    pub fn start(procedure: Arc<Proc>, shape: Arc<Shape>, args: &[i64]) -> Result<Turn, WrongArgs>
        ensures wrong { IsOk result ↔ (length args.now ≡ (arc_value procedure).arity) }
        ensures code { IfOk result (λ t. t.code ≡ arc_value procedure) }
        ensures parents { IfOk result (λ t. t.parents ≡ arc_value shape) }
        ensures left { IfOk result (λ t. (records : Records) → left_of t records ≡ run_alone (arc_value procedure).instrs (arc_value shape) args.now records) }
        ensures steps { IfOk result (λ t. t.call.steps ≡ 0) }
        ensures reply { IfOk result (λ t. reply_so_far t.call ≡ []) }
    {
        if !procedure.takes(args) {
            return Err(WrongArgs);
        }
        Ok(Turn::at_start(procedure, shape, args))
    }

    /// The same for a caller that already knows that the procedure takes that many arguments.
    #[inline(always)]
    pub fn at_start(procedure: Arc<Proc>, shape: Arc<Shape>, args: &[i64]) -> Turn
        requires { length args.now ≡ (arc_value procedure).arity }
        ensures code { result.code ≡ arc_value procedure }
        ensures parents { result.parents ≡ arc_value shape }
        ensures left { (records : Records) → left_of result records ≡ run_alone (arc_value procedure).instrs (arc_value shape) args.now records }
        ensures steps { result.call.steps ≡ 0 }
        ensures reply { reply_so_far result.call ≡ [] }
    {
        let call = start::at_start(&procedure, &shape, args);
        Turn {
            procedure,
            shape,
            call,
        }
    }

    // A call at this state.
    pub(crate) fn at(procedure: Arc<Proc>, shape: Arc<Shape>, call: &CallState) -> Turn
        requires { IsTurn (arc_value procedure).instrs (arc_value shape) call.now }
        ensures { result ≡ record { code = arc_value procedure; parents = arc_value shape; call = call.now } }
    {
        Turn {
            procedure,
            shape,
            call: *call,
        }
    }

    // The call's procedure and shape, and its state.
    pub(crate) fn into_parts(self) -> (Arc<Proc>, Arc<Shape>, CallState)
        ensures parts { record { code = arc_value result.0; parents = arc_value result.1; call = result.2 } ≡ self }
        ensures turn { IsTurn self.code.instrs self.parents self.call }
    {
        (self.procedure, self.shape, self.call)
    }

    /// A call that is done. Takes no memory.
    pub fn over(procedure: Arc<Proc>, shape: Arc<Shape>) -> Turn
        ensures code { result.code ≡ arc_value procedure }
        ensures parents { result.parents ≡ arc_value shape }
        ensures over { Stops result stop.Over }
    {
        Turn {
            procedure,
            shape,
            call: CallState::over(),
        }
    }

    /// A copy, on the same procedure and shape.
    pub fn try_clone(&self) -> Result<Turn, AllocError>
        ensures { IfOk result (λ t. t ≡ self.now) }
    {
        let procedure = Arc::try_clone(&self.procedure)?;
        let shape = Arc::try_clone(&self.shape)?;
        Ok(Turn {
            procedure,
            shape,
            call: self.call,
        })
    }

    /// Whether both are the same: one state, of calls of one code on trees of one shape. The states are compared first,
    /// since they usually decide.
    pub fn is(&self, other: &Turn) -> bool
        ensures { IsTrue result ↔ (self.now ≡ other.now) }
    {
        self.call.is(&other.call) && self.is_alike(other)
    }

    // Whether both are of one code, on trees of one shape.
    fn is_alike(&self, other: &Turn) -> bool
        ensures { IsTrue result ↔ ((self.now.code ≡ other.now.code) × (self.now.parents ≡ other.now.parents)) }
    {
        self.procedure.is(&other.procedure) && self.shape.is(&other.shape)
    }

    /// What the next instruction needs.
    pub fn want(&self) -> Want
        ensures { Wants self.now result }
    {
        self.call.want(&self.procedure, &self.shape)
    }

    /// Does the next instruction if it is local. Otherwise it changes nothing and says where the call stops.
    #[inline(always)]
    pub fn advance(&mut self) -> Advance
        ensures same { self.new ≡ with_call self.old self.new.call }
        ensures steps { IfDid result (λ act. Steps self.old.code.instrs self.old.parents self.old.call act self.new.call) }
        ensures stops { IfStopped result (Stops self.old) }
        ensures unchanged { IfStopped result (λ _. self.new ≡ self.old) }
    {
        match self.call.advance(&self.procedure) {
            Ok(action) => Advance::Did(action),
            Err(pending) => {
                Advance::Stopped(self.call.stop_at(&self.procedure, &self.shape, pending))
            }
        }
    }

    /// Does the next instruction, which must be local.
    pub fn step(&mut self) -> Action
        requires { Wants self.old want.Local }
        ensures same { self.new ≡ with_call self.old self.new.call }
        ensures steps { Steps self.old.code.instrs self.old.parents self.old.call result self.new.call }
    {
        match self.call.advance(&self.procedure) {
            Ok(action) => action,
            Err(_) => unreachable!(),
        }
    }

    /// Does the call's local instructions in place, up to the first instruction that isn't local, and returns where the
    /// call then stops. Takes no memory.
    pub fn run_local(&mut self) -> Stop
        ensures same { self.new ≡ with_call self.old self.new.call }
        ensures segment { IsSegment (record { from = self.old; to = self.new.call; stop = result }) }
    {
        let pending = self.call.run_local(&self.procedure);
        self.call.stop_at(&self.procedure, &self.shape, pending)
    }

    /// The call as lent to a worker, which does its local instructions elsewhere.
    pub fn lend(&self) -> Result<LentTurn, AllocError>
        ensures { IfOk result (λ l. l ≡ record { code = self.now.code; from = self.now.call; to = self.now.call }) }
    {
        let procedure = Arc::try_clone(&self.procedure)?;
        Ok(LentTurn::new(procedure, &self.shape, &self.call, &self.call))
    }

    /// Locks the node that the next instruction locks, and whose record is `found`.
    pub fn lock(&mut self, found: Record)
        requires { (x : ℕ) × Stops self.old (stop.Lock x) }
        ensures same { self.new ≡ with_call self.old self.new.call }
        ensures locks { (x : ℕ) × Stops self.old (stop.Lock x) × Locks self.old.code.instrs self.old.parents self.old.call x found self.new.call }
    {
        let Want::Stop(stop) = self.want() else {
            unreachable!()
        };
        let Stop::Lock(node) = stop else {
            unreachable!()
        };
        self.lock_node(node, found);
    }

    /// The same for a caller that knows the node already, from `advance` or `want`.
    #[inline(always)]
    pub fn lock_node(&mut self, node: u32, found: Record)
        requires { Stops self.old (stop.Lock node) }
        ensures same { self.new ≡ with_call self.old self.new.call }
        ensures locks { Locks self.old.code.instrs self.old.parents self.old.call node found self.new.call }
        ensures exact { self.new.call ≡ after_lock self.old.code.instrs self.old.parents self.old.call node found }
    {
        self.call.lock(&self.procedure, &self.shape, node, found);
    }

    /// Frees the node that the next instruction frees. The result is the record that the node has from then on.
    pub fn free(&mut self) -> Record
        requires { (x : ℕ) × Stops self.old (stop.Free x) }
        ensures same { self.new ≡ with_call self.old self.new.call }
        ensures frees { (x : ℕ) × Stops self.old (stop.Free x) × Frees self.old.code.instrs self.old.parents self.old.call x result self.new.call }
        ensures exact { self.new.call ≡ after_free self.old.code.instrs self.old.call }
    {
        self.call.free(&self.procedure, &self.shape)
    }

    /// Ends the call, and returns the values that it emitted.
    pub fn finish(&mut self) -> Reply
        requires { Stops self.old stop.Return }
        ensures same { self.new ≡ with_call self.old self.new.call }
        ensures ends { Ends self.old.code.instrs self.old.parents self.old.call self.new.call }
        ensures reply { result ≡ reply_so_far self.old.call }
    {
        self.call.finish(&self.procedure, &self.shape);
        Reply::of(&self.call)
    }

    /// The procedure that is called.
    pub fn procedure(&self) -> &Arc<Proc>
        ensures { arc_value result.now ≡ self.now.code }
    {
        &self.procedure
    }

    /// The shape of the trees on which it is called.
    pub fn shape(&self) -> &Arc<Shape>
        ensures { arc_value result.now ≡ self.now.parents }
    {
        &self.shape
    }

    /// Its state.
    pub fn call(&self) -> &CallState
        ensures state { result.now ≡ self.now.call }
        ensures turn { IsTurn self.now.code.instrs self.now.parents self.now.call }
    {
        &self.call
    }

    /// Moves the call to another state of the same procedure on the same shape. Takes no memory.
    pub fn put_at(&mut self, state: &CallState)
        requires { IsTurn self.old.code.instrs self.old.parents state.now }
        ensures { self.new ≡ with_call self.old state.now }
    {
        self.call = *state;
    }
}
