// Expressions: each function reads one rule of the grammar. `levels` says how many levels may still be opened.

ghost use Rattle.std.specs.Prelude.{◌≡◌, IfOk, IfSome};
ghost use Rattle.tl_syntax.specs.Grammar.{
  IsAdditive,
  IsMultiplicative,
  IsComparison,
  IsMade,
  IsShort,
  IsRest,
  IsJoined,
  IsPlain,
  IsExpression,
  Disjunction,
  Conjunction,
  Negation,
  Relation,
  Sum,
  Term,
  Unary,
  Atom,
};

use crate::fault::{SyntaxFault, Wrong};
use crate::operator::Operator;
use crate::parsed::{Comparison, Expression, Form};
use crate::parser::{Parsed, Parser};
use crate::token::TokenKind;

// An operator that joins two expressions.
#[derive(Clone, Copy)]
enum Join {
    Or,
    And,
    Compare(Comparison),
    Calculate(Operator),
    Rest,
}

// The expression again. 273 if it is computed.
fn again(expression: &Expression) -> Result<Expression, SyntaxFault>
    ensures short { IfOk result (λ e. IsShort e.form) }
    ensures same { IfOk result (λ e. e ≡ expression.now) }
{
    let form = match &expression.form {
        Form::Number(number) => Form::Number(*number),
        Form::Named(name) => Form::Named(*name),
        Form::Field { node, field } => Form::Field {
            node: *node,
            field: *field,
        },
        Form::Children(node) => Form::Children(*node),
        _ => return Err(SyntaxFault::at(Wrong::RestOperand, expression.offset)),
    };
    let offset = expression.offset;
    Ok(Expression { offset, form })
}

impl<'a> Parser<'a> {
    // A sign of a sum, and the index after it.
    fn additive(&self, at: usize) -> Option<(Operator, usize)>
        ensures { IfSome result (λ read. IsAdditive self.now.tokens.now at read.1 read.0) }
    {
        let next = self.behind(at);
        match self.kind(at) {
            TokenKind::Plus => Some((Operator::Add, next)),
            TokenKind::Minus => Some((Operator::Subtract, next)),
            _ => None,
        }
    }

    // A sign of a product, and the index after it.
    fn multiplicative(&self, at: usize) -> Option<(Join, usize)>
        ensures { IfSome result (λ read. IsMultiplicative self.now.tokens.now at read.1 read.0) }
    {
        let next = self.behind(at);
        match self.kind(at) {
            TokenKind::Times => Some((Join::Calculate(Operator::Multiply), next)),
            TokenKind::Divide => Some((Join::Calculate(Operator::Divide), next)),
            TokenKind::Remainder => Some((Join::Rest, next)),
            _ => None,
        }
    }

    // A sign that compares, and the index after it.
    fn comparison(&self, at: usize) -> Option<(Comparison, usize)>
        ensures { IfSome result (λ read. IsComparison self.now.tokens.now at read.1 read.0) }
    {
        let next = self.behind(at);
        match self.kind(at) {
            TokenKind::Less => Some((Comparison::Less, next)),
            TokenKind::LessOrEqual => Some((Comparison::LessOrEqual, next)),
            TokenKind::Greater => Some((Comparison::Greater, next)),
            TokenKind::GreaterOrEqual => Some((Comparison::GreaterOrEqual, next)),
            TokenKind::Equal => Some((Comparison::Equal, next)),
            TokenKind::NotEqual => Some((Comparison::NotEqual, next)),
            _ => None,
        }
    }

    // The expression of an operator and its two sides, which begins where the first one does.
    fn made(
        &self,
        left: Expression,
        right: Expression,
        join: Join,
    ) -> Result<Expression, SyntaxFault>
        ensures { IfOk result (λ e. IsMade join left right e) }
    {
        let offset = left.offset;
        let left = Box::new(self.alloc, left)?;
        let right = Box::new(self.alloc, right)?;
        let form = match join {
            Join::Or => Form::Or(left, right),
            Join::And => Form::And(left, right),
            Join::Compare(comparison) => Form::Compared(comparison, left, right),
            Join::Calculate(operator) => Form::Calculated(operator, left, right),
            Join::Rest => Form::Calculated(Operator::Subtract, left, right),
        };
        Ok(Expression { offset, form })
    }

    // The rest of a division: the first side less the quotient times the second one. 273 at a side that is computed.
    fn rest(&self, left: Expression, right: Expression) -> Result<Expression, SyntaxFault>
        ensures { IfOk result (λ e. IsRest left right e) }
    {
        let divided = again(&left)?;
        let divisor = again(&right)?;
        let quotient = self.made(divided, divisor, Join::Calculate(Operator::Divide))?;
        let product = self.made(quotient, right, Join::Calculate(Operator::Multiply))?;
        self.made(left, product, Join::Rest)
    }

    // Joins two expressions. 273 at a side of `%` that is computed.
    fn joined(
        &self,
        left: Expression,
        right: Expression,
        join: Join,
    ) -> Result<Expression, SyntaxFault>
        ensures { IfOk result (λ e. IsJoined join left right e) }
    {
        match join {
            Join::Rest => self.rest(left, right),
            _ => self.made(left, right, join),
        }
    }

    /// A chain of `or`. Each operator opens a level, which stays open until the chain ends.
    #[cycle(expressions)]
    pub fn expression(&self, at: usize, levels: u32) -> Parsed<Expression>
        ensures { IfOk result (λ read. IsExpression self.now.tokens.now levels Disjunction at read.1 read.0) }
    {
        let (mut left, mut at) = self.conjunction(at, levels)?;
        let mut spare = levels;
        while let Some(next) = self.skip_if(at, TokenKind::Or) {
            spare = self.open(at, spare)?;
            let (right, after) = self.conjunction(next, spare)?;
            left = self.joined(left, right, Join::Or)?;
            at = after;
        }
        Ok((left, at))
    }

    #[cycle(expressions)]
    fn conjunction(&self, at: usize, levels: u32) -> Parsed<Expression>
        ensures { IfOk result (λ read. IsExpression self.now.tokens.now levels Conjunction at read.1 read.0) }
    {
        let (mut left, mut at) = self.negation(at, levels)?;
        let mut spare = levels;
        while let Some(next) = self.skip_if(at, TokenKind::And) {
            spare = self.open(at, spare)?;
            let (right, after) = self.negation(next, spare)?;
            left = self.joined(left, right, Join::And)?;
            at = after;
        }
        Ok((left, at))
    }

    #[cycle(expressions)]
    fn negation(&self, at: usize, levels: u32) -> Parsed<Expression>
        ensures { IfOk result (λ read. IsExpression self.now.tokens.now levels Negation at read.1 read.0) }
    {
        let Some(next) = self.skip_if(at, TokenKind::Not) else {
            return self.relation(at, levels);
        };
        let levels = self.open(at, levels)?;
        let (operand, after) = self.negation(next, levels)?;
        let form = Form::Not(Box::new(self.alloc, operand)?);
        let offset = self.offset(at);
        Ok((Expression { offset, form }, after))
    }

    #[cycle(expressions)]
    fn relation(&self, at: usize, levels: u32) -> Parsed<Expression>
        ensures { IfOk result (λ read. IsExpression self.now.tokens.now levels Relation at read.1 read.0) }
    {
        let (left, at) = self.sum(at, levels)?;
        let Some((comparison, next)) = self.comparison(at) else {
            return Ok((left, at));
        };
        let (right, at) = self.sum(next, levels)?;
        let compared = self.joined(left, right, Join::Compare(comparison))?;
        Ok((compared, at))
    }

    #[cycle(expressions)]
    fn sum(&self, at: usize, levels: u32) -> Parsed<Expression>
        ensures { IfOk result (λ read. IsExpression self.now.tokens.now levels Sum at read.1 read.0) }
    {
        let (mut left, mut at) = self.product(at, levels)?;
        let mut spare = levels;
        while let Some((operator, next)) = self.additive(at) {
            spare = self.open(at, spare)?;
            let (right, after) = self.product(next, spare)?;
            left = self.joined(left, right, Join::Calculate(operator))?;
            at = after;
        }
        Ok((left, at))
    }

    #[cycle(expressions)]
    fn product(&self, at: usize, levels: u32) -> Parsed<Expression>
        ensures { IfOk result (λ read. IsExpression self.now.tokens.now levels Term at read.1 read.0) }
    {
        let (mut left, mut at) = self.signed(at, levels)?;
        let mut spare = levels;
        while let Some((join, next)) = self.multiplicative(at) {
            spare = self.open(at, spare)?;
            let (right, after) = self.signed(next, spare)?;
            left = self.joined(left, right, join)?;
            at = after;
        }
        Ok((left, at))
    }

    // A minus sign directly before a number makes a negative number. Any other minus sign opens a level.
    #[cycle(expressions)]
    fn signed(&self, at: usize, levels: u32) -> Parsed<Expression>
        ensures { IfOk result (λ read. IsExpression self.now.tokens.now levels Unary at read.1 read.0) }
    {
        let Some(next) = self.skip_if(at, TokenKind::Minus) else {
            return self.atom(at, levels);
        };
        let offset = self.offset(at);
        if let Some((number, after)) = self.negative(next)? {
            let form = Form::Number(number);
            return Ok((Expression { offset, form }, after));
        }
        let levels = self.open(at, levels)?;
        let (operand, after) = self.signed(next, levels)?;
        let form = Form::Negated(Box::new(self.alloc, operand)?);
        Ok((Expression { offset, form }, after))
    }

    #[cycle(expressions)]
    fn atom(&self, at: usize, levels: u32) -> Parsed<Expression>
        ensures { IfOk result (λ read. IsExpression self.now.tokens.now levels Atom at read.1 read.0) }
    {
        let offset = self.offset(at);
        let Some(next) = self.skip_if(at, TokenKind::LeftParenthesis) else {
            let (form, after) = self.plain(at)?;
            return Ok((Expression { offset, form }, after));
        };
        let levels = self.open(at, levels)?;
        let (mut inner, after) = self.expression(next, levels)?;
        let after = self.skip(after, TokenKind::RightParenthesis)?;
        inner.offset = offset;
        Ok((inner, after))
    }

    // A number, a name, a field of a node or the number of its children.
    fn plain(&self, at: usize) -> Parsed<Form>
        ensures { IfOk result (λ read. IsPlain self.now.tokens.now at read.1 read.0) }
    {
        match self.kind(at) {
            TokenKind::Number(_) => {
                let (number, at) = self.number(at)?;
                Ok((Form::Number(number), at))
            }
            TokenKind::Kids => {
                let at = self.skip(at, TokenKind::Kids)?;
                let at = self.skip(at, TokenKind::LeftParenthesis)?;
                let (node, at) = self.name(at)?;
                let at = self.skip(at, TokenKind::RightParenthesis)?;
                Ok((Form::Children(node), at))
            }
            _ => self.named(at),
        }
    }

    fn named(&self, at: usize) -> Parsed<Form>
        ensures { IfOk result (λ read. IsPlain self.now.tokens.now at read.1 read.0) }
    {
        let (name, at) = self.name(at)?;
        let Some(next) = self.skip_if(at, TokenKind::Dot) else {
            return Ok((Form::Named(name), at));
        };
        let (field, at) = self.name(next)?;
        Ok((Form::Field { node: name, field }, at))
    }
}
