// How statements fail, and the codes that their failures leave.

ghost use Rattle.std.specs.Prelude.{◌≡◌, ◌<◌, true, false, IfOk, OnOk, IfSome, List};
ghost use Rattle.tl_lowering.specs.Choosing.{IsKept};
ghost use Rattle.tl_lowering.specs.Entering.{before_of, IsEntering};
ghost use Rattle.tl_lowering.specs.Failing.{number_failure as number_failure_lem, place_failure as place_failure_lem, failure_at, IsFailure, IsMarked};
ghost use Rattle.tl_lowering.specs.Lowering.{IsRefusal};
ghost use Rattle.tl_lowering.specs.Names.{names_of};
ghost use Rattle.tl_lowering.specs.Outcomes.{may_fail as may_fail_lem};
ghost use Rattle.tl_lowering.specs.Passing.{Before};
ghost use Rattle.tl_lowering.specs.Paths.{nodes_of};
ghost use Rattle.tl_lowering.specs.Reading.{IsCode, IsReason, IsRequired, IsActed};
ghost use Rattle.tl_lowering.specs.Repeating.{IsTurn};
ghost use Rattle.tl_lowering.specs.Scopes.{view_of, IsAt, IsLowered};
ghost use Rattle.tl_lowering.specs.declared.program.Statement.TheVariants.{Break};
ghost use Rattle.tl_lowering.specs.Sound.{IsReadable};
ghost use Rattle.tl_syntax.specs.declared.parsed.Action.TheVariants.{Leave as leave_by};
ghost use Rattle.tl_syntax.specs.declared.parsed.Declaration.{Declaration};

use crate::loops::Repetition;
use crate::lowering::{Lowered, Lowering};
use crate::paths::{Flow, Held};
use crate::program::{Expression, Place, Statement};
use crate::readers::Readers;
use crate::values::{check_registers, condition_may_fail, may_fail, registers_of};
use tl_instr::ValueRegister;
use tl_syntax::parsed::{self, Leave};
use tl_syntax::{Failure, SyntaxFault, Wrong};

/// How computing a number fails, if it may.
pub fn number_failure(may_fail: bool) -> Option<Failure>
    ensures { result ≡ number_failure_lem may_fail }
{
    if may_fail {
        Some(Failure::Number)
    } else {
        None
    }
}

/// How a place can't be locked.
pub fn place_failure(place: &Place) -> Failure
    ensures { result ≡ place_failure_lem place.now }
{
    match place {
        Place::Node(_, _) => Failure::Node,
        Place::Child(_, _, _) | Place::Pair { .. } => Failure::Child,
    }
}

/// How the statement may fail by itself: before control comes to a statement of the text in it.
#[cycle(own_failure)]
fn own_failure(statement: &Statement) -> Option<Failure>
    ensures { result ≡ failure_at false statement.now }
{
    match statement {
        Statement::Assign(_, number) | Statement::Write(_, _, number) | Statement::Emit(number) => {
            number_failure(may_fail(number))
        }
        Statement::Sequence(first, second) => own_failure(first).or(own_failure(second)),
        Statement::Descend(_, _) => Some(Failure::Child),
        Statement::If(condition, _, _) => number_failure(condition_may_fail(condition)),
        Statement::Let(_, number, body) => { number_failure(may_fail(number)).or(failure_in(body)) }
        Statement::RepeatUpTo(_, _, _) => Some(Failure::Bound),
        _ => None,
    }
}

// The same of the statement in a `let`: a loop there goes over children, whose place is the value.
#[cycle(own_failure)]
fn failure_in(body: &Statement) -> Option<Failure>
    ensures { result ≡ failure_at true body.now }
{
    match body {
        Statement::RepeatUpTo(_, _, _) => Some(Failure::Children),
        _ => own_failure(body),
    }
}

impl Lowering {
    // The register in which a failure leaves its code here, if one does: it is one of those in use, which control comes to only by
    // way of the `else` that reads it. 291 if it isn't.
    fn code_register(
        &self,
        readers: &Readers,
        offset: usize,
    ) -> Result<Option<ValueRegister>, SyntaxFault>
        ensures same { IfOk result (λ r. r ≡ readers.now.code) }
        ensures in_use { IfOk result (λ r. IfSome r (λ x. x < self.now.scope.values)) }
    {
        let Some(register) = readers.code else {
            return Ok(None);
        };
        self.check_in_use(register, offset)?;
        Ok(Some(register))
    }

    /// 291 if the register isn't one of those in use.
    pub fn check_in_use(&self, register: ValueRegister, offset: usize) -> Result<(), SyntaxFault>
        ensures { OnOk result (register < self.now.scope.values) }
    {
        if register.index() >= usize::from(self.scope.values) {
            return Err(SyntaxFault::at(Wrong::Values, offset));
        }
        Ok(())
    }

    /// The statement, behind a mark that says how it fails by itself if it does.
    pub fn marked(
        &self,
        readers: &Readers,
        statement: Statement,
        offset: usize,
    ) -> Result<Statement, SyntaxFault>
        ensures named { IfOk result (IsMarked readers.now.code statement) }
        ensures lowered { (held : Held) (flow : Flow) → IsLowered (view_of self.now.scope) held statement flow
            → IfOk result (λ s. IsLowered (view_of self.now.scope) held s flow) }
        ensures entering { (e : Before) (flow : Flow) → IsEntering e statement flow → IfOk result (λ s. IsEntering e s flow) }
    {
        let Some(register) = self.code_register(readers, offset)? else {
            return Ok(statement);
        };
        let Some(failure) = own_failure(&statement) else {
            return Ok(statement);
        };
        let code = Expression::Constant(failure.code());
        self.then(Statement::Assign(register, code), statement)
    }

    /// The body of a loop's turn. Behind it a loop over children may fail again by itself.
    pub fn renewed(
        &self,
        readers: &Readers,
        repetition: &Repetition,
        body: Statement,
        offset: usize,
    ) -> Result<Statement, SyntaxFault>
        ensures named { IfOk result (IsKept readers.now repetition.now body) }
        ensures turn { (start : Held) (flow : Flow) → IsTurn self.now.scope.values self.now.scope.nodes (nodes_of start) repetition.now body flow
            → IfOk result (λ s. IsTurn self.now.scope.values self.now.scope.nodes (nodes_of start) repetition.now s flow) }
        ensures entering { (e : Before) (flow : Flow) → IsEntering e body flow → IfOk result (λ s. IsEntering e s flow) }
    {
        let Some(register) = self.code_register(readers, offset)? else {
            return Ok(body);
        };
        match repetition {
            Repetition::Times(_) | Repetition::UpTo(_, _) => Ok(body),
            Repetition::Children(_) => {
                let code = Expression::Constant(Failure::Children.code());
                self.then(body, Statement::Assign(register, code))
            }
        }
    }

    /// A failure with that code.
    pub fn failure(
        &self,
        readers: &Readers,
        code: Expression,
        offset: usize,
        held: Held,
    ) -> Result<Lowered, SyntaxFault>
        requires readable { IsReadable self.now.scope.values (nodes_of held) code }
        requires short { may_fail_lem code ≡ false }
        ensures named { IfOk result (λ l. IsFailure readers.now.code code l.0) }
        ensures refusal { IfOk result (λ l. IsRefusal (view_of self.now.scope) held l.0 l.1) }
        ensures entering { IfOk result (λ l. IsEntering (before_of held) l.0 l.1) }
    {
        let flow = Flow::NOWHERE.failing(held);
        match self.code_register(readers, offset)? {
            None => Ok((Statement::Fail, flow)),
            Some(register) => {
                let whole = self.then(Statement::Assign(register, code), Statement::Fail)?;
                Ok((whole, flow))
            }
        }
    }

    /// Leaves the innermost loop. 288 if there is none.
    pub fn break_out(&self, offset: usize, held: Held) -> Result<Lowered, SyntaxFault>
        requires { IsAt (view_of self.now.scope) held }
        ensures named { IfOk result (λ l. l.0 ≡ Break) }
        ensures in_loop { OnOk result (0 < self.now.scope.loops) }
        ensures lowered { IfOk result (λ l. IsLowered (view_of self.now.scope) held l.0 l.1) }
        ensures entering { IfOk result (λ l. IsEntering (before_of held) l.0 l.1) }
    {
        if self.scope.loops == 0 {
            return Err(SyntaxFault::at(Wrong::NoLoop, offset));
        }
        let flow = Flow {
            breaks: Some(held),
            ..Flow::NOWHERE
        };
        Ok((Statement::Break, flow))
    }

    /// A statement that leaves its block, without a code. 288 for a `break` outside a loop.
    pub fn leave(
        &self,
        readers: &Readers,
        leave: Leave,
        offset: usize,
        held: Held,
    ) -> Result<Lowered, SyntaxFault>
        requires { IsAt (view_of self.now.scope) held }
        ensures named { (before : List Declaration)
            → IfOk result (λ l. IsActed before readers.now (names_of self.now.scope) (leave_by leave) l.0) }
        ensures lowered { IfOk result (λ l. IsLowered (view_of self.now.scope) held l.0 l.1) }
        ensures entering { IfOk result (λ l. IsEntering (before_of held) l.0 l.1) }
    {
        match leave {
            Leave::Break => self.break_out(offset, held),
            Leave::Return => Ok((Statement::Return, Flow::NOWHERE)),
            Leave::Fail => self.failure(readers, Expression::Constant(0), offset, held),
        }
    }

    /// The code of a failure. 271 if it has more than 32 bits.
    pub fn code(&self, code: &parsed::Expression, held: Held) -> Result<Expression, SyntaxFault>
        requires { IsAt (view_of self.now.scope) held }
        ensures named { IfOk result (IsCode (names_of self.now.scope) code.now.form) }
        ensures readable { IfOk result (IsReadable self.now.scope.values (nodes_of held)) }
        ensures short { IfOk result (λ e. may_fail_lem e ≡ false) }
    {
        let number = self.scope.number(self.alloc, code, held)?;
        if may_fail(&number) {
            return Err(SyntaxFault::at(Wrong::LongCode, code.offset));
        }
        let needed = registers_of(&number, usize::from(self.scope.values));
        check_registers(needed, code.offset)?;
        Ok(number)
    }

    // The code of a condition's failure. Without one it is 0.
    fn reason(
        &self,
        code: &Option<parsed::Expression>,
        held: Held,
    ) -> Result<Expression, SyntaxFault>
        requires { IsAt (view_of self.now.scope) held }
        ensures named { IfOk result (IsReason (names_of self.now.scope) code.now) }
        ensures readable { IfOk result (IsReadable self.now.scope.values (nodes_of held)) }
        ensures short { IfOk result (λ e. may_fail_lem e ≡ false) }
    {
        match code {
            Some(code) => self.code(code, held),
            None => Ok(Expression::Constant(0)),
        }
    }

    /// A condition that is required, and the code of the failure where it doesn't hold.
    pub fn require(
        &self,
        readers: &Readers,
        condition: &parsed::Expression,
        code: &Option<parsed::Expression>,
        held: Held,
    ) -> Result<Lowered, SyntaxFault>
        requires { IsAt (view_of self.now.scope) held }
        ensures named { IfOk result (λ l. IsRequired readers.now (names_of self.now.scope) condition.now.form code.now l.0) }
        ensures lowered { IfOk result (λ l. IsLowered (view_of self.now.scope) held l.0 l.1) }
        ensures entering { IfOk result (λ l. IsEntering (before_of held) l.0 l.1) }
    {
        let offset = condition.offset;
        let condition = self.scope.condition(self.alloc, condition, held)?;
        let number = self.reason(code, held)?;
        let (fail, _) = self.failure(readers, number, offset, held)?;
        let skip = self.boxed(Statement::Skip)?;
        let flow = Flow::on(held).failing(held);
        Ok((Statement::If(condition, skip, self.boxed(fail)?), flow))
    }
}
