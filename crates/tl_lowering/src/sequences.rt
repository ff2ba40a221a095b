// Statements one after another.

ghost use Rattle.std.specs.Prelude.{◌≡◌, ◌+◌, ◌<◌, ◌≤◌, IfOk, OnOk, length, take, drop};
ghost use Rattle.std.specs.Vec.Iter.{into_iter_items, into_iter_len};
ghost use Rattle.tl_lowering.specs.Blocks.{IsSequence, IsSame, IsPair, IsAttempt};
ghost use Rattle.tl_lowering.specs.Naming.{IsThen, IsHalved};
ghost use Rattle.tl_lowering.specs.Reading.{IsAtOffset, IsTried};

use crate::lowering::Lowering;
use crate::program::Statement;
use std::vec::IntoIter;
use tl_syntax::SyntaxFault;

impl Lowering {
    pub fn boxed(&self, statement: Statement) -> Result<Box<Statement>, SyntaxFault>
        ensures { IfOk result (λ b. b.value ≡ statement) }
    {
        Ok(Box::new(self.alloc, statement)?)
    }

    pub fn at(&self, offset: usize, statement: Statement) -> Result<Statement, SyntaxFault>
        ensures named { IfOk result (IsAtOffset offset statement) }
        ensures same { IfOk result (λ s. IsSame s statement) }
    {
        Ok(Statement::At(offset, self.boxed(statement)?))
    }

    /// The statements one after another. The sequence is halved repeatedly, so that no statement is deeply nested.
    pub fn sequence(&self, statements: Vec<Statement>) -> Result<Statement, SyntaxFault>
        ensures named { IfOk result (λ s. IsHalved s statements.items) }
        ensures sequence { IfOk result (λ s. IsSequence s statements.items) }
    {
        let count = statements.len();
        if count == 0 {
            return Ok(Statement::Skip);
        }
        let mut rest = statements.into_iter();
        self.joined(&mut rest, count)
    }

    fn joined(&self, rest: &mut IntoIter<Statement>, count: usize) -> Result<Statement, SyntaxFault>
        requires some { 0 < count }
        requires fits { count ≤ into_iter_len rest.old }
        requires all { into_iter_len rest.old ≡ length (into_iter_items rest.old) }
        ensures named { IfOk result (λ s. IsHalved s (take count (into_iter_items rest.old))) }
        ensures whole { IfOk result (λ s. IsSequence s (take count (into_iter_items rest.old))) }
        ensures rest { OnOk result (into_iter_items rest.new ≡ drop count (into_iter_items rest.old)) }
        ensures len { OnOk result (into_iter_len rest.new + count ≡ into_iter_len rest.old) }
    {
        if count < 2 {
            return Ok(rest.next().unwrap_or(Statement::Skip));
        }
        let half = count / 2;
        let first = self.joined(rest, half)?;
        let second = self.joined(rest, count - half)?;
        self.then(first, second)
    }

    pub fn then(&self, first: Statement, second: Statement) -> Result<Statement, SyntaxFault>
        ensures named { IfOk result (IsThen first second) }
        ensures pair { IfOk result (λ s. IsPair s first second) }
    {
        let first = self.boxed(first)?;
        let second = self.boxed(second)?;
        Ok(Statement::Sequence(first, second))
    }

    pub fn attempt(&self, body: Statement, handler: Statement) -> Result<Statement, SyntaxFault>
        ensures named { IfOk result (IsTried body handler) }
        ensures attempt { IfOk result (λ s. IsAttempt s body handler) }
    {
        let body = self.boxed(body)?;
        let handler = self.boxed(handler)?;
        Ok(Statement::Try(body, handler))
    }
}
