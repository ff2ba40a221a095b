// Statements without blocks: each function reads one rule of the grammar. `levels` says how many levels may still be opened.

ghost use Rattle.std.specs.Prelude.{◌≡◌, true, IfOk, IfSome};
ghost use Rattle.tl_syntax.specs.Statements.{
  IsLeave,
  IsChange,
  IsArgument,
  IsChild,
  IsPlace,
  AreExpressions,
  IsWrite,
  AreMoreWrites,
  AreGiven,
  IsAction,
  IsCode,
  IsReason,
  names_code,
  leaves_block,
};

use crate::fault::{SyntaxFault, Wrong};
use crate::parsed::{Action, Change, Child, Expression, Form, Leave, Name, Place, Write};
use crate::parser::{Parsed, Parser};
use crate::token::{Symbol, TokenKind};

// Whether the expression is a number or a name.
fn is_number_or_name(expression: &Expression) -> bool
    ensures { result ≡ names_code expression.now.form }
{
    matches!(expression.form, Form::Number(_) | Form::Named(_))
}

impl<'a> Parser<'a> {
    fn leave(&self, at: usize) -> Option<(Leave, usize)>
        ensures { IfSome result (λ read. IsLeave self.now.tokens.now at read.1 read.0) }
    {
        let next = self.behind(at);
        match self.kind(at) {
            TokenKind::Break => Some((Leave::Break, next)),
            TokenKind::Return => Some((Leave::Return, next)),
            TokenKind::Fail => Some((Leave::Fail, next)),
            _ => None,
        }
    }

    fn change(&self, at: usize) -> Parsed<Change>
        ensures { IfOk result (λ read. IsChange self.now.tokens.now at read.1 read.0) }
    {
        let next = self.behind(at);
        match self.kind(at) {
            TokenKind::Assign => Ok((Change::Set, next)),
            TokenKind::AddAssign => Ok((Change::Add, next)),
            TokenKind::SubtractAssign => Ok((Change::Subtract, next)),
            _ => Err(self.misplaced(at)),
        }
    }

    fn let_action(&self, at: usize, levels: u32) -> Parsed<Action>
        ensures { IfOk result (λ read. IsAction self.now.tokens.now levels at read.1 read.0) }
    {
        let at = self.skip(at, TokenKind::Let)?;
        let (name, at) = self.name(at)?;
        let at = self.skip(at, TokenKind::Assign)?;
        let (value, at) = self.expression(at, levels)?;
        Ok((Action::Let { name, value }, at))
    }

    // An assignment to a value.
    fn assign(&self, at: usize, levels: u32) -> Parsed<Action>
        ensures { IfOk result (λ read. IsAction self.now.tokens.now levels at read.1 read.0) }
    {
        let (name, at) = self.name(at)?;
        let (change, at) = self.change(at)?;
        let (value, at) = self.expression(at, levels)?;
        let action = Action::Assign {
            name,
            change,
            value,
        };
        Ok((action, at))
    }

    // A write of a field.
    fn write(&self, at: usize, levels: u32) -> Parsed<Write>
        ensures { IfOk result (λ read. IsWrite self.now.tokens.now levels at read.1 read.0) }
    {
        let (node, at) = self.name(at)?;
        let at = self.skip(at, TokenKind::Dot)?;
        let (field, at) = self.name(at)?;
        let (change, at) = self.change(at)?;
        let (value, at) = self.expression(at, levels)?;
        let write = Write {
            node,
            field,
            change,
            value,
        };
        Ok((write, at))
    }

    // The writes that follow the first one, each behind a comma.
    fn more_writes(&self, at: usize, levels: u32) -> Parsed<Vec<Write>>
        ensures { IfOk result (λ read. AreMoreWrites self.now.tokens.now levels at read.1 read.0.items) }
    {
        let mut writes = Vec::new(self.alloc);
        let mut next = at;
        for _ in 0..self.tokens.len() {
            let Some(behind) = self.skip_if(next, TokenKind::Comma) else {
                break;
            };
            let (write, after) = self.write(behind, levels)?;
            writes.push(write)?;
            next = after;
        }
        Ok((writes, next))
    }

    // What begins with a name: a part that is used, writes of fields, or an assignment to a value.
    fn named_action(&self, at: usize, levels: u32) -> Parsed<Action>
        ensures { IfOk result (λ read. IsAction self.now.tokens.now levels at read.1 read.0) }
    {
        match self.kind(self.behind(at)) {
            TokenKind::LeftParenthesis => self.using(at, levels),
            TokenKind::Dot => {
                let (first, at) = self.write(at, levels)?;
                let (others, at) = self.more_writes(at, levels)?;
                Ok((Action::Write(first, others), at))
            }
            _ => self.assign(at, levels),
        }
    }

    // One expression or more, with commas between them.
    fn values(&self, at: usize, levels: u32) -> Parsed<Vec<Expression>>
        ensures { IfOk result (λ read. AreExpressions self.now.tokens.now levels at read.1 read.0.items) }
    {
        let mut values = Vec::new(self.alloc);
        let (value, mut next) = self.expression(at, levels)?;
        values.push(value)?;
        for _ in 0..self.tokens.len() {
            let Some(behind) = self.skip_if(next, TokenKind::Comma) else {
                break;
            };
            let (value, after) = self.expression(behind, levels)?;
            values.push(value)?;
            next = after;
        }
        Ok((values, next))
    }

    // What a part is given, and the closing parenthesis.
    fn given(&self, at: usize, levels: u32) -> Parsed<Vec<Expression>>
        ensures { IfOk result (λ read. AreGiven self.now.tokens.now levels at read.1 read.0.items) }
    {
        if let Some(after) = self.skip_if(at, TokenKind::RightParenthesis) {
            return Ok((Vec::new(self.alloc), after));
        }
        let (values, at) = self.values(at, levels)?;
        let at = self.skip(at, TokenKind::RightParenthesis)?;
        Ok((values, at))
    }

    // A part where it is used. The word `while` before a parenthesis begins a loop.
    fn using(&self, at: usize, levels: u32) -> Parsed<Action>
        ensures { IfOk result (λ read. IsAction self.now.tokens.now levels at read.1 read.0) }
    {
        let (part, next) = self.name(at)?;
        if part.symbol == Symbol::WHILE || part.symbol == Symbol::FOUND {
            return Err(self.misplaced(at));
        }
        let next = self.skip(next, TokenKind::LeftParenthesis)?;
        let (arguments, after) = self.given(next, levels)?;
        Ok((Action::Use { part, arguments }, after))
    }

    // A number in parentheses.
    fn argument(&self, at: usize, levels: u32) -> Parsed<Expression>
        ensures { IfOk result (λ read. IsArgument self.now.tokens.now levels at read.1 read.0) }
    {
        let at = self.skip(at, TokenKind::LeftParenthesis)?;
        let (number, at) = self.expression(at, levels)?;
        let at = self.skip(at, TokenKind::RightParenthesis)?;
        Ok((number, at))
    }

    // The child that a name is to own, after the name and its sign.
    fn child(&self, name: Name, at: usize, levels: u32) -> Parsed<Child>
        ensures read { IfOk result (λ read. IsChild self.now.tokens.now levels at read.1 read.0) }
        ensures name { IfOk result (λ read. read.0.name ≡ name) }
    {
        let at = self.skip(at, TokenKind::Child)?;
        let at = self.skip(at, TokenKind::LeftParenthesis)?;
        let (parent, at) = self.name(at)?;
        let at = self.skip(at, TokenKind::Comma)?;
        let (number, at) = self.expression(at, levels)?;
        let at = self.skip(at, TokenKind::RightParenthesis)?;
        let child = Child {
            name,
            parent,
            number,
        };
        Ok((child, at))
    }

    pub fn place(&self, at: usize, levels: u32) -> Parsed<Place>
        ensures { IfOk result (λ read. IsPlace self.now.tokens.now levels at read.1 read.0) }
    {
        let (name, at) = self.name(at)?;
        let at = self.skip(at, TokenKind::Assign)?;
        if let Some(next) = self.skip_if(at, TokenKind::Node) {
            let offset = self.offset(at);
            let (number, at) = self.argument(next, levels)?;
            let place = Place::Node {
                name,
                offset,
                number,
            };
            return Ok((place, at));
        }
        let (first, at) = self.child(name, at, levels)?;
        let Some(next) = self.skip_if(at, TokenKind::Comma) else {
            return Ok((Place::Child(first), at));
        };
        let (name, at) = self.name(next)?;
        let at = self.skip(at, TokenKind::Assign)?;
        let (second, at) = self.child(name, at, levels)?;
        Ok((Place::Pair(first, second), at))
    }

    // A descent to a child, or a move to the node of another name.
    fn descent(&self, at: usize, levels: u32) -> Parsed<Action>
        ensures { IfOk result (λ read. IsAction self.now.tokens.now levels at read.1 read.0) }
    {
        let at = self.skip(at, TokenKind::Descend)?;
        let (node, at) = self.name(at)?;
        let at = self.skip_word(at, Symbol::TO)?;
        let Some(next) = self.skip_if(at, TokenKind::Child) else {
            let (from, at) = self.name(at)?;
            return Ok((Action::Take { node, from }, at));
        };
        let (number, at) = self.argument(next, levels)?;
        Ok((Action::Descend { node, number }, at))
    }

    // The code of a failure. 273 if it is computed.
    fn code(&self, at: usize, levels: u32) -> Parsed<Expression>
        ensures { IfOk result (λ read. IsCode self.now.tokens.now levels at read.1 read.0) }
    {
        let (code, after) = self.expression(at, levels)?;
        if !is_number_or_name(&code) {
            return Err(SyntaxFault::at(Wrong::CodeForm, code.offset));
        }
        Ok((code, after))
    }

    // The code of the failure of a condition, behind a colon, if it has one.
    fn reason(&self, at: usize, levels: u32) -> Parsed<Option<Expression>>
        ensures { IfOk result (λ read. IsReason self.now.tokens.now levels at read.1 read.0) }
    {
        let Some(next) = self.skip_if(at, TokenKind::Colon) else {
            return Ok((None, at));
        };
        let (code, after) = self.code(next, levels)?;
        Ok((Some(code), after))
    }

    // A condition that is required, and the code of the failure where it doesn't hold.
    fn requirement(&self, at: usize, levels: u32) -> Parsed<Action>
        ensures { IfOk result (λ read. IsAction self.now.tokens.now levels at read.1 read.0) }
    {
        let at = self.skip(at, TokenKind::Require)?;
        let (condition, at) = self.expression(at, levels)?;
        let (code, at) = self.reason(at, levels)?;
        Ok((Action::Require(condition, code), at))
    }

    // Whether the word `fail` stands here with a code.
    fn has_code(&self, at: usize) -> bool {
        self.kind(at) == TokenKind::Fail && self.kind(self.behind(at)) != TokenKind::Semicolon
    }

    // Whether the word `break` stands here with numbers.
    fn has_numbers(&self, at: usize) -> bool {
        self.kind(at) == TokenKind::Break
            && self.kind(self.behind(at)) == TokenKind::Name(Symbol::WITH)
    }

    /// `break`, which may have numbers, `return`, or `fail`, which may have a code.
    pub fn way_out(&self, at: usize, levels: u32) -> Parsed<Action>
        ensures read { IfOk result (λ read. IsAction self.now.tokens.now levels at read.1 read.0) }
        ensures leaves { IfOk result (λ read. leaves_block read.0 ≡ true) }
    {
        if self.has_code(at) {
            let next = self.skip(at, TokenKind::Fail)?;
            let (code, after) = self.code(next, levels)?;
            return Ok((Action::Fail(code), after));
        }
        if self.has_numbers(at) {
            let next = self.skip(at, TokenKind::Break)?;
            let next = self.skip_word(next, Symbol::WITH)?;
            let (values, after) = self.values(next, levels)?;
            return Ok((Action::BreakWith(values), after));
        }
        match self.leave(at) {
            Some((leave, next)) => Ok((Action::Leave(leave), next)),
            None => Err(self.misplaced(at)),
        }
    }

    /// A statement without blocks of its own, up to the token that ends it.
    pub fn action(&self, at: usize, levels: u32) -> Parsed<Action>
        ensures { IfOk result (λ read. IsAction self.now.tokens.now levels at read.1 read.0) }
    {
        match self.kind(at) {
            TokenKind::Let => self.let_action(at, levels),
            TokenKind::Name(_) => self.named_action(at, levels),
            TokenKind::Emit => {
                let at = self.skip(at, TokenKind::Emit)?;
                let (values, at) = self.values(at, levels)?;
                Ok((Action::Emit(values), at))
            }
            TokenKind::Require => self.requirement(at, levels),
            TokenKind::Lock => {
                let at = self.skip(at, TokenKind::Lock)?;
                let (place, at) = self.place(at, levels)?;
                Ok((Action::Lock(place), at))
            }
            TokenKind::Free => {
                let at = self.skip(at, TokenKind::Free)?;
                let (node, at) = self.name(at)?;
                Ok((Action::Free(node), at))
            }
            TokenKind::Descend => self.descent(at, levels),
            _ => self.way_out(at, levels),
        }
    }
}
